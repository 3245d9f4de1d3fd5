// A list of calls in words, and the two words of an answer. For `calls`.
#![tactic(auto)]

ghost use Rattle.std.specs.Prelude.{◌≡◌, ◌+◌, ◌<◌, length};
ghost use Rattle.calls_words.specs.Lists.{calls_in, end_of, place_in, with_answer};

use rules::Answer;

// Where the call whose count stands at `at` ends: behind its entries, or where the words end.
pub fn end_of(calls: &[u16], at: usize) -> usize
    requires { at < length calls.now }
    ensures { result ≡ end_of calls.now at }
{
    (at + 1 + usize::from(calls[at])).min(calls.len())
}

// How many calls the words hold.
pub fn count_calls(calls: &[u16]) -> usize
    ensures { result ≡ length (calls_in calls.now) }
{
    let mut found = 0;
    let mut at = 0;
    // A loop over an index, since each turn goes on by a call and not by a word.
    while at < calls.len() {
        found += 1;
        at = end_of(calls, at);
    }
    found
}

// An answer's two words: its number, and its place. One store at an index, which gives no place back: a struct of both would have one method, and `calls` one use of it.
pub fn put_answer(out: &mut [u16], at: usize, a: Answer<()>)
    requires { (at + 1 < length out.old) × (place_in a < 65536) }
    ensures { out.new ≡ with_answer out.old at a }
{
    let (number, place) = match a {
        Ok(()) => (0, 0),
        Err(e) => (u16::from(e.refusal), e.place as u16),
    };
    out[at] = number;
    out[at + 1] = place;
}
