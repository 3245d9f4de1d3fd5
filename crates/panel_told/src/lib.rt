// What C is told of an answer: a number, the words of the answer in the caller's array, and three words of a refusal, 0, 0, 0 for none.
// A refusal is the number 0 and leaves the array. For `panel_c`, which has the answers.
#![tactic(auto)]

ghost use Rattle.std.specs.Prelude.{◌≡◌};
ghost use Rattle.panel_words.specs.Words.{buffer_number};
ghost use Rattle.panel_told.specs.Telling.{Given, alone, number_in, words_in, given_with, code_of, refusal_of, Tells};
ghost use Rattle.panel_told.specs.Answers.{file_given, move_words, list_given, short_for, import_given, import_short, point_words, line_words, seen_words, ends_words, ends_seen, cut_words};

use answers::{LineSeen, NotImported, NotListed, Sizes};
use panel_words::Buffer;
use rules::{Answer, Line, Place, Refusal};
use tool::Move;

// A value that C is told: by a number, and by N words in the caller's array, which a number alone leaves.
pub trait ForC<A, const N: usize> {
    ghost given: { Self → Given A };

    fn put(self, words: &mut [A; N]) -> u64
        ensures number { result ≡ number_in (given self) }
        ensures words { words.new ≡ words_in words.old (given self) };
}

// An answer: the number and the words of its value, or the three words of its refusal. The call could find `buffer` too short, if there is one.
pub fn tell<A, const N: usize, T: ForC<A, N>>(
    answer: Answer<T>,
    buffer: Option<Buffer>,
    words: &mut [A; N],
    refusal: &mut [u64; 3],
) -> u64
    ensures { Tells (buffer_number buffer) (given_with T.given answer) words.old words.new result refusal.new }
{
    match answer {
        Ok(value) => {
            *refusal = [0, 0, 0];
            value.put(words)
        }
        Err(refused) => {
            *refusal = panel_words::refusal_words(refused, buffer);
            0
        }
    }
}

// A move: 1 to 4, and its two coordinates or its height and 0.
impl ForC<f32, 2> for Move {
    ghost given = { move_words };

    fn put(self, words: &mut [f32; 2]) -> u64 {
        *words = self.numbers();
        u64::from(self.kind())
    }
}

// A point's place: 1, and its x and y.
impl ForC<u64, 2> for Place {
    ghost given = { point_words };

    fn put(self, words: &mut [u64; 2]) -> u64 {
        *words = [u64::from(self.x), u64::from(self.y)];
        1
    }
}

// A line's words: later point, earlier point, the kind of its bend, the port's index, the bend's x and y, and its own kind as a drawing file has it.
fn line_words(l: Line, x: u64, y: u64) -> [u64; 7]
    ensures { result ≡ line_words l x y }
{
    let later = u64::from(l.later);
    let earlier = u64::from(l.earlier);
    let bent = panel_words::bend_kind(l.bend);
    let port = panel_words::port_of(l.bend);
    let field = u64::from(words::last_field(l.kind));
    [later, earlier, bent, port, x, y, field]
}

// A line: 1, and those words. For drawings with bends; a straight line has no place for one, and is told without it. Here x and y are 0 for none: the C interface has no Option.
impl ForC<u64, 7> for LineSeen {
    ghost given = { seen_words };

    fn put(self, words: &mut [u64; 7]) -> u64 {
        *words = match self {
            LineSeen::Bent(l, bend) => line_words(l, u64::from(bend.x), u64::from(bend.y)),
            LineSeen::Straight(l) => line_words(l, 0, 0),
        };
        1
    }
}

// A line's words without a bend: later point, earlier point, and its kind.
fn ends_words(l: Line) -> [u64; 3]
    ensures { result ≡ ends_words l }
{
    let later = u64::from(l.later);
    let earlier = u64::from(l.earlier);
    let field = u64::from(words::last_field(l.kind));
    [later, earlier, field]
}

// A line without its bend: 1, and those words.
impl ForC<u64, 3> for LineSeen {
    ghost given = { ends_seen };

    fn put(self, words: &mut [u64; 3]) -> u64 {
        *words = match self {
            LineSeen::Bent(l, _) | LineSeen::Straight(l) => ends_words(l),
        };
        1
    }
}

// What C is told where there is no cut line. It stays a number: the C interface has no Option.
const NO_CUT_LINE: u64 = 2;

// A cut line: 1 and its number; or that there is none.
impl ForC<u64, 1> for Option<usize> {
    ghost given = { cut_words };

    fn put(self, words: &mut [u64; 1]) -> u64 {
        match self {
            Some(line) => {
                *words = [line as u64];
                1
            }
            None => NO_CUT_LINE,
        }
    }
}

// A number alone.
impl ForC<u64, 0> for usize {
    ghost given = { alone };

    fn put(self, words: &mut [u64; 0]) -> u64 {
        self as u64
    }
}

// The number of bytes written.
pub fn tell_written(written: Answer<usize>, buffer: Option<Buffer>, refusal: &mut [u64; 3]) -> u64
    ensures { (result ≡ code_of (file_given written)) × (refusal.new ≡ refusal_of (buffer_number buffer) (file_given written)) }
{
    tell(written, buffer, &mut [], refusal)
}

// All moves: how many there are. 24 tells which of their two buffers is short; with another refusal 24 is of `buffer`.
pub fn tell_listed(
    listed: Result<usize, NotListed>,
    buffer: Option<Buffer>,
    refusal: &mut [u64; 3],
) -> u64
    ensures { (result ≡ code_of (list_given listed)) × (refusal.new ≡ refusal_of (short_for (buffer_number buffer) listed) (list_given listed)) }
{
    let short = Refusal::OutputShort.at(0);
    match listed {
        Ok(count) => tell_written(Ok(count), buffer, refusal),
        Err(NotListed::KindsShort) => tell_written(Err(short), Some(Buffer::Output), refusal),
        Err(NotListed::NumbersShort) => tell_written(Err(short), Some(Buffer::Numbers), refusal),
        Err(NotListed::Refused(refused)) => tell_written(Err(refused), buffer, refusal),
    }
}

// An import: the bytes of its order file. 24 tells which of the two buffers is short.
pub fn tell_imported(imported: Result<Sizes, NotImported>, refusal: &mut [u64; 3]) -> u64
    ensures { (result ≡ code_of (import_given imported)) × (refusal.new ≡ refusal_of (import_short imported) (import_given imported)) }
{
    let short = Refusal::OutputShort.at(0);
    match imported {
        Ok(sizes) => tell_written(Ok(sizes.order), None, refusal),
        Err(NotImported::OrderShort) => tell_written(Err(short), Some(Buffer::Output), refusal),
        Err(NotImported::ListShort) => tell_written(Err(short), Some(Buffer::Vertices), refusal),
        Err(NotImported::Refused(refused)) => tell_written(Err(refused), None, refusal),
    }
}
