// A whole list of calls in one function: demand 3 of document 01 and wish 2 of document 02 as one claim about the program.
#![tactic(auto)]

ghost use Rattle.std.specs.Prelude.{◌≡◌, OnErr};
ghost use Rattle.store_tables.specs.Tables.{zeros};
ghost use Rattle.calls.specs.Turns.{Callable, Made, Begun, Ended, Runs};
ghost use Rattle.calls.specs.Ran.{drawing_in, Ran};

use drawing::Drawing;
use rules::{Answer, FEWEST_POINTS, MOST_POINTS, Refusal, Style};

// One call on the lent drawing, with its answer at `at` of the buffer.
fn one_call(d: &mut Drawing, e: &[u16], answers: &mut [u16], at: usize)
    requires { Callable d.old e.now answers.old at }
    ensures { Made d.old e.now answers.old at d.new answers.new }
{
    let answer = store_adding::add(d, e);
    calls_words::put_answer(answers, at, answer);
}

// All calls on the lent drawing, as it was opened, with their answers in the buffer.
// Each turn goes on by a call and not by a word, so a `for` is no plainer than this `while`.
fn all_calls(d: &mut Drawing, calls: &[u16], answers: &mut [u16])
    requires { Begun d.old.counts.style d.old.counts.n calls.now answers.old d.old }
    ensures { Ended d.old.counts.style d.old.counts.n calls.now answers.old d.new answers.new }
{
    let mut told = 0;
    let mut at = 0;
    while at < calls.len() {
        let from = at + 1;
        let end = calls_words::end_of(calls, at);
        let e = &calls[from..end];
        one_call(d, e, answers, told);
        told += 2;
        at = end;
    }
}

// Opens a drawing whose table is empty in this style for n points and makes all calls on it, with their answers in the buffer.
fn draw_calls(d: &mut Drawing, style: Style, n: usize, calls: &[u16], answers: &mut [u16])
    requires { Runs style n calls.now answers.old × (d.old.table ≡ zeros) }
    ensures { Ended style n calls.now answers.old d.new answers.new }
{
    store_points::open_in(d, style, n, 1, 1, 1, 2);
    all_calls(d, calls, answers);
}

// Makes the calls that the words hold on a drawing of this style opened for n points; each answer takes two words of the buffer.
// For `panel_c`: it asks for a drawing whose table is empty, whatever its numbers, and leaves it so where it refuses. It is lent, so that no call through C has two on its stack (fixed memory).
// No struct of style, n, calls and answers: `run` takes them by name, and each is handed on once.
pub fn run_in(
    d: &mut Drawing,
    style: Style,
    n: usize,
    calls: &[u16],
    answers: &mut [u16],
) -> Answer<()>
    requires { d.old.table ≡ zeros }
    ensures ran { Ran style n calls.now answers.old answers.new (drawing_in result d.new) }
    ensures kept { OnErr result (d.new ≡ d.old) }
{
    if n < FEWEST_POINTS {
        return Err(Refusal::OutOfRange.at(0));
    }
    if MOST_POINTS < n {
        return Err(Refusal::OutOfRange.at(0));
    }
    let needed = 2 * calls_words::count_calls(calls);
    if answers.len() < needed {
        return Err(Refusal::OutputShort.at(0));
    }
    draw_calls(d, style, n, calls, answers);
    Ok(())
}

// The same, with the drawing by value.
pub fn run(style: Style, n: usize, calls: &[u16], answers: &mut [u16]) -> Answer<Drawing>
    ensures { Ran style n calls.now answers.old answers.new result }
{
    let mut d = Drawing::blank();
    run_in(&mut d, style, n, calls, answers)?;
    Ok(d)
}
