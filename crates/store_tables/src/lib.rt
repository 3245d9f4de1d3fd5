// A drawing as the program keeps it: its numbers, and its points and its lines in one table.
#![tactic(auto)]

ghost use Rattle.std.specs.Prelude.{◌≡◌, ◌<◌, ◌≤◌};
ghost use Rattle.store_tables.specs.Tables.{arrays_in, zeros, blank};
ghost use Rattle.store_tables.specs.Columns.{point_at, put_point};

use rules::{Bend, Kind, Line, MOST_POINTS, Style};
use store_links::Counts;

// Room for so many points, and so many lines.
pub const POINTS: usize = MOST_POINTS;

pub const LINES: usize = 3 * POINTS;

// What the table keeps of a point. Crate `store_links` says what each number is.
// Points name each other by number, 0 where there is none, as the rules' owners do; an Option would be told from that in every law, and a blank table would not be all zeros.
// h is small too; it has 32 bits so that a point has 16 bytes, and its place in the table is got by one shift.
#[derive(Clone, Copy, Debug, PartialEq, Eq)]
pub struct Point {
    pub next: u16,
    pub gap: u16,
    pub owner: u16,
    pub y: u16,
    pub dl: u16,
    pub dr: u16,
    pub h: u32,
}

// The points and the lines of a drawing.
// Arrays of full length, of which the counts say how much is in use: the project has no heap.
#[derive(Clone, Copy)]
pub struct Table {
    pub points: [Point; POINTS],
    pub lines: [Line; LINES],
}

// What stands where there is no point yet, and no line.
pub const NO_POINT: Point = Point {
    next: 0,
    gap: 0,
    owner: 0,
    y: 0,
    dl: 0,
    dr: 0,
    h: 0,
};

pub const NO_LINE: Line = Line {
    later: 0,
    earlier: 0,
    bend: Bend::NoBend,
    kind: Kind::Guide,
};

impl Table {
    // A table that holds no drawing yet: every number is 0.
    pub fn zeros() -> Table
        ensures { result ≡ zeros }
    {
        Table {
            points: [NO_POINT; POINTS],
            lines: [NO_LINE; LINES],
        }
    }

    // Point p, counted from 1.
    #[tactic(auto, using(crate::specs::Columns::point_read))]
    pub fn point(&self, p: usize) -> Point
        requires { (0 < p) × (p ≤ 1024) }
        ensures { result ≡ point_at (arrays_in self.now) p }
    {
        self.points[p - 1]
    }

    // Point p, counted from 1, is stored.
    #[tactic(auto, using(crate::specs::Columns::point_stored))]
    pub fn put(&mut self, p: usize, point: Point)
        requires { (0 < p) × (p ≤ 1024) }
        ensures { arrays_in self.new ≡ put_point (arrays_in self.old) p point }
    {
        let i = p - 1;
        self.points[i] = point;
    }
}

// A drawing: boundary links and gaps in one table. It is lent, so that no call through C has two on its stack (fixed memory).
// That it stores something stands in contracts: a blank one is a Drawing too, and one whose file was refused.
#[derive(Clone, Copy)]
pub struct Drawing {
    pub counts: Counts,
    pub table: Table,
}

impl Drawing {
    // No drawing yet: every number is 0, no points and no lines.
    pub fn blank() -> Drawing
        ensures { result ≡ blank }
    {
        Drawing {
            counts: Counts {
                style: Style::OneBend,
                n: 0,
                s: 0,
                k: 0,
                m: 0,
                lines: 0,
            },
            table: Table::zeros(),
        }
    }
}
