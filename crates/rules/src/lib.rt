// The enums and structs that every crate shares, under document 01's names.
// What they mean is in specs/: document 01 as definitions.
#![tactic(auto)]

ghost use Rattle.std.specs.Prelude.{◌≡◌};
ghost use Rattle.rules.specs.Refusals.{number, refusal_at};

// "Every record begins with a two-byte mark." Those of an order file, those of a drawing file, and the end of both.
pub const ORDER_MARK: u16 = 0x4844;

pub const SCALE_MARK: u16 = 0x5343;

pub const ENTRIES_MARK: u16 = 0x5054;

pub const DRAWING_MARK: u16 = 0x4448;

pub const STRAIGHT_MARK: u16 = 0x4453;

pub const PLACE_MARK: u16 = 0x504F;

pub const LINE_MARK: u16 = 0x4C4E;

pub const END_MARK: u16 = 0x454E;

// How many numbers stand behind the mark: n, s, width, height; x, y; later point, earlier point, bend x, bend y, its kind; and of a straight line, which has no bend, the other three.
pub const DRAWING_NUMBERS: usize = 4;

pub const PLACE_NUMBERS: usize = 2;

pub const LINE_NUMBERS: usize = 5;

pub const STRAIGHT_NUMBERS: usize = 3;

// How many bytes a record has: a mark, a mark and a number, or a mark and those numbers.
pub const END_SIZE: usize = 2;

pub const NUMBER_SIZE: usize = 4;

pub const DRAWING_SIZE: usize = 2 + 2 * DRAWING_NUMBERS;

pub const PLACE_SIZE: usize = 2 + 2 * PLACE_NUMBERS;

pub const LINE_SIZE: usize = 2 + 2 * LINE_NUMBERS;

// "n from 3 to 1,024"
pub const FEWEST_POINTS: usize = 3;

pub const MOST_POINTS: usize = 1024;

// The largest files: 10,238 and 42,948 bytes.
pub const LONGEST_ORDER: usize = 10 * MOST_POINTS - 2;

pub const LONGEST_DRAWING: usize = 42 * MOST_POINTS - 60;

// "Refused because of the input", then "Refused because of the state", in the order of their numbers.
#[derive(Clone, Copy, Debug, PartialEq, Eq)]
pub enum Refusal {
    FileEnds,
    WrongMark,
    OutOfRange,
    OtherStart,
    FewEntries,
    NotPlaced,
    Covered,
    NoRun,
    NotWhole,
    ExtraBytes,
    OtherDrawing,
    BadTool,
    BothMarks,
    BadCode,
    NoNet,
    Finished,
    Unfinished,
    NoSuch,
    OutputShort,
    NoReach,
}

// A refusal's number in document 01.
impl From<Refusal> for u16 {
    ghost from_gives = { λ r n. n ≡ number r };

    fn from(r: Refusal) -> u16 {
        match r {
            Refusal::FileEnds => 1,
            Refusal::WrongMark => 2,
            Refusal::OutOfRange => 3,
            Refusal::OtherStart => 4,
            Refusal::FewEntries => 5,
            Refusal::NotPlaced => 6,
            Refusal::Covered => 7,
            Refusal::NoRun => 8,
            Refusal::NotWhole => 9,
            Refusal::ExtraBytes => 10,
            Refusal::OtherDrawing => 11,
            Refusal::BadTool => 12,
            Refusal::BothMarks => 13,
            Refusal::BadCode => 14,
            Refusal::NoNet => 15,
            Refusal::Finished => 21,
            Refusal::Unfinished => 22,
            Refusal::NoSuch => 23,
            Refusal::OutputShort => 24,
            Refusal::NoReach => 25,
        }
    }
}

// "Number and place": why something is refused, and where.
#[derive(Clone, Copy, Debug, PartialEq, Eq)]
pub struct Refused {
    pub refusal: Refusal,
    pub place: usize,
}

impl Refusal {
    // This refusal at a place.
    pub fn at(self, place: usize) -> Refused
        ensures { result ≡ refusal_at self place }
    {
        Refused {
            refusal: self,
            place,
        }
    }
}

// What a call answers: that it is accepted, with a value where it has one, or its refusal and place.
pub type Answer<T> = Result<T, Refused>;

// The two drawings: lines with one bend, or straight lines.
#[derive(Clone, Copy, Debug, PartialEq, Eq)]
pub enum Style {
    OneBend,
    Straight,
}

// Where a line bends: nowhere, or at a left, right or middle port, with the port's index.
// `NoBend` stands first, so that a line of zeros has none. It is one of document 01's four answers, not a missing one: an Option of the other three would be no plainer.
#[derive(Clone, Copy, Debug, PartialEq, Eq)]
pub enum Bend {
    NoBend,
    Left(u16),
    Right(u16),
    Middle(u16),
}

// What an entry says of its line: a guide isn't cut, a plain line is cut once, a feeder twice.
#[derive(Clone, Copy, Debug, PartialEq, Eq)]
pub enum Kind {
    Guide,
    Plain,
    Feeder,
}

#[derive(Clone, Copy, Debug, PartialEq, Eq)]
pub struct Line {
    pub later: u16,
    pub earlier: u16,
    pub bend: Bend,
    pub kind: Kind,
}

// A place on the grid.
#[derive(Clone, Copy, Debug, PartialEq, Eq)]
pub struct Place {
    pub x: u16,
    pub y: u16,
}

// An entry of a call or of an order file: an earlier point, and the kind of the line to it.
#[derive(Clone, Copy, Debug, PartialEq, Eq)]
pub struct Entry {
    pub point: u16,
    pub kind: Kind,
}

// The reading of an entry's 16-bit number: an entry of one of the three kinds, or a point marked both guide and feeder.
// A Result would be no plainer: reading is never refused, and a number marked both names a point too, as `point_read` in specs/Entries says; only the tests refuse it.
#[derive(Clone, Copy, Debug, PartialEq, Eq)]
pub enum Reading {
    Given(Entry),
    Both(u16),
}
