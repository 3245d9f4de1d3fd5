// Records in the bytes of a file: marks and numbers, as both files have them.
#![tactic(auto)]

mod cursor;

ghost use Rattle.std.specs.Prelude.{◌≡◌};
ghost use Rattle.rules.specs.Basics.{between};

pub use cursor::Cursor;

// The entries of a point's record: how many, their offset, and the offset behind them.
#[derive(Clone, Copy, Debug, PartialEq, Eq)]
pub struct Entries {
    pub count: usize,
    pub from: usize,
    pub next: usize,
}

// Whether v lies from low to high.
pub fn lies(v: u16, low: usize, high: usize) -> bool
    ensures { result ≡ between low high v }
{
    (low..=high).contains(&usize::from(v))
}
