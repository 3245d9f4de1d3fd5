// How the running program keeps a drawing: boundary links and gaps in arrays of 16-bit numbers, and lines, which one lent table keeps (crate `store_tables`).
// The structs that its functions pass by value; specs/ says what the arrays hold and what each step does to them.
#![tactic(auto)]

ghost use Rattle.std.specs.Prelude.{◌≡◌, ◌<◌, ◌≤◌};
ghost use Rattle.rules.specs.Adding.{new_bend};
ghost use Rattle.store_links.specs.Storing.{line_of, with_counts};

use rules::{Bend, Line, Style};
use words::entry_of;

// What is added to a covered point's distance from its owner, so that a point to the left of it has a gap too.
pub const GAP_OFFSET: usize = 32768;

// What stands beside the arrays: which of the two drawings it is, n and s as opened, k points, m of them on the boundary, and the lines so far.
#[derive(Clone, Copy, Debug, PartialEq, Eq)]
pub struct Counts {
    pub style: Style,
    pub n: usize,
    pub s: usize,
    pub k: usize,
    pub m: usize,
    pub lines: usize,
}

// Where the new point goes, counted from wl: dx to the right of it, at height y, with the middle row h below it.
// The inner points of the run move by s1; wr then lies rest to the right of the new point.
#[derive(Clone, Copy, Debug, PartialEq, Eq)]
pub struct Spot {
    pub dx: usize,
    pub y: usize,
    pub h: usize,
    pub s1: usize,
    pub rest: usize,
}

// The numbers with one point more, and a line for each of its entries.
pub fn counts_with(c: Counts, entries: usize) -> Counts
    requires { (c.k < 1024) × (c.m ≤ 1024) × (c.lines ≤ 3072) × (entries ≤ c.m) }
    ensures { result ≡ with_counts c entries }
{
    Counts {
        k: c.k + 1,
        m: c.m + 3 - entries,
        lines: c.lines + entries,
        ..c
    }
}

// The bend of entry i's line: at wl's new right port, wr's new left one, or a middle port.
pub fn new_bend(rights: u16, lefts: u16, last: usize, from: usize, i: usize) -> Bend
    requires { i < 65535 }
    ensures { result ≡ new_bend rights lefts last from i }
{
    if i == 0 {
        return Bend::Right(rights);
    }
    if i == last {
        return Bend::Left(lefts);
    }
    let next = i + 1;
    if i < from {
        Bend::Middle(i as u16)
    } else {
        Bend::Middle(next as u16)
    }
}

// The line of the entry that is the number e, from the later point v, with this bend.
pub fn line_of(v: u16, b: Bend, e: u16) -> Line
    ensures { result ≡ line_of v b e }
{
    let x = entry_of(e);
    Line {
        later: v,
        earlier: x.point,
        bend: b,
        kind: x.kind,
    }
}
