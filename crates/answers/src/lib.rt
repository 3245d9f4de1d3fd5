// What calls answer where that is more than a value of `rules` or a number. What each case is in document 01's numbers is in specs/Told.
#![tactic(auto)]

ghost use Rattle.std.specs.Prelude.{◌≡◌};
ghost use Rattle.answers.specs.declared.NotListed.TheVariants as NotListed;
ghost use Rattle.answers.specs.declared.NotImported.TheVariants as NotImported;
ghost use Rattle.answers.specs.Told.{listed_refusal, import_refusal};

use rules::{Line, Place, Refusal, Refused};

// A line as it is seen: with its bend, and where the bend lies, or a straight line.
// A Line with an Option for the place would be no plainer: with bends there always is one, and straight there never is.
#[derive(Clone, Copy, Debug, PartialEq, Eq)]
pub enum LineSeen {
    Bent(Line, Place),
    Straight(Line),
}

// Why moves were not written into two buffers: they are refused, or a buffer is too short.
#[derive(Clone, Copy, Debug, PartialEq, Eq)]
pub enum NotListed {
    Refused(Refused),
    KindsShort,
    NumbersShort,
}

impl From<Refused> for NotListed {
    ghost from_gives = { λ refused e. e ≡ NotListed.Refused refused };

    fn from(refused: Refused) -> NotListed {
        NotListed::Refused(refused)
    }
}

// The refusal that it is: a buffer that is too short is 24, at place 0.
impl From<NotListed> for Refused {
    ghost from_gives = { λ why refused. refused ≡ listed_refusal why };

    fn from(why: NotListed) -> Refused {
        match why {
            NotListed::Refused(refused) => refused,
            NotListed::KindsShort => Refusal::OutputShort.at(0),
            NotListed::NumbersShort => Refusal::OutputShort.at(0),
        }
    }
}

// An import, written into two buffers: how many bytes of the order file, and of the list of vertices.
#[derive(Clone, Copy, Debug, PartialEq, Eq)]
pub struct Sizes {
    pub order: usize,
    pub list: usize,
}

// Why an import was not written: it is refused, or a buffer is too short.
// One enum with NotListed would be no plainer: C is told of each buffer by name, so it would want an enum of two names for each call.
#[derive(Clone, Copy, Debug, PartialEq, Eq)]
pub enum NotImported {
    Refused(Refused),
    OrderShort,
    ListShort,
}

impl From<Refused> for NotImported {
    ghost from_gives = { λ refused e. e ≡ NotImported.Refused refused };

    fn from(refused: Refused) -> NotImported {
        NotImported::Refused(refused)
    }
}

// The refusal that it is, in the same manner.
impl From<NotImported> for Refused {
    ghost from_gives = { λ why refused. refused ≡ import_refusal why };

    fn from(why: NotImported) -> Refused {
        match why {
            NotImported::Refused(refused) => refused,
            NotImported::OrderShort => Refusal::OutputShort.at(0),
            NotImported::ListShort => Refusal::OutputShort.at(0),
        }
    }
}
