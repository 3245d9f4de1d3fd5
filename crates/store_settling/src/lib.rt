// The x of every placed point, from links and gaps; and the place where a line bends.
// For the crates above: it asks for a stored drawing, which they have.
#![tactic(auto)]

ghost use Rattle.std.specs.Prelude.{◌≡◌, ◌<◌, ◌≤◌, get_or};
ghost use Rattle.store_tables.specs.Tables.{arrays_in};
ghost use Rattle.store_settling.specs.Walk.{first_pass, Walks};
ghost use Rattle.store_settling.specs.Hang.{hang_by, HangsBy, hung, Hangs};
ghost use Rattle.store_settling.specs.Placed.{Settleable, Settled};
ghost use Rattle.store_settling.specs.Bends.{Bendable, bend_in};

use rules::{Bend, Line, Place};
use store_lines::{left_port, middle_port, right_port};
use store_links::GAP_OFFSET;
use store_tables::{Drawing, POINTS, Table};

// The first pass: boundary points along the links from point 1, which lies at 0.
fn walk(x: &mut [u16; POINTS], table: &Table, k: usize)
    requires { Walks (arrays_in table.now).next (arrays_in table.now).gap k (get_or (arrays_in table.now).next 0 0) 0 }
    ensures { x.new ≡ first_pass (arrays_in table.now).next (arrays_in table.now).gap k x.old }
{
    x[0] = 0;
    let mut at = 0;
    let mut p = usize::from(table.point(1).next);
    for _step in 0..k {
        if p == 0 {
            return;
        }
        let point = table.point(p);
        at += usize::from(point.gap);
        x[p - 1] = at as u16;
        p = usize::from(point.next);
    }
}

// One covered point, at index p: its x from its owner's. Of a boundary point nothing changes.
fn hang_one(x: &mut [u16; POINTS], table: &Table, p: usize)
    requires { (p < 1024) × HangsBy (get_or (arrays_in table.now).owner p 0) (arrays_in table.now).gap p x.old }
    ensures { x.new ≡ hang_by (get_or (arrays_in table.now).owner p 0) (arrays_in table.now).gap p x.old }
{
    let point = table.point(p + 1);
    let o = usize::from(point.owner);
    if o == 0 {
        return;
    }
    let sum = usize::from(x[o - 1]) + usize::from(point.gap);
    x[p] = (sum - GAP_OFFSET) as u16;
}

// The second pass: covered points from point k down to point 1, each after its owner.
fn hang(x: &mut [u16; POINTS], table: &Table, k: usize)
    requires { (k ≤ 1024) × Hangs (arrays_in table.now).gap (arrays_in table.now).owner k x.old }
    ensures { x.new ≡ hung (arrays_in table.now).gap (arrays_in table.now).owner k x.old }
{
    for p in (0..k).rev() {
        hang_one(x, table, p);
    }
}

// The x of every placed point.
pub fn settle(x: &mut [u16; POINTS], d: &Drawing)
    requires { Settleable x.old (arrays_in d.now.table) d.now.counts.k }
    ensures { Settled x.new (arrays_in d.now.table) d.now.counts.k }
{
    let k = d.counts.k;
    walk(x, &d.table, k);
    hang(x, &d.table, k);
}

// A drawing with the x of every placed point: what look-ups, moves and writers read.
// That it is stored and settled stands in contracts: bend_of and the writers ask for less, and a type may not ask more. x isn't a field of a point: adding moves points without telling where to.
#[derive(Clone, Copy)]
pub struct View<'a> {
    pub drawing: &'a Drawing,
    pub x: &'a [u16; POINTS],
}

// Where a line bends, from the places of now.
// The later point's own port first: one `match` over all four would be a jump by a table, which a processor can't foretell.
pub fn bend_of(view: &View, l: Line) -> Place
    requires { Bendable view.now.x.now (arrays_in view.now.drawing.now.table) l.later l.earlier l.bend }
    ensures { result ≡ bend_in view.now.x.now (arrays_in view.now.drawing.now.table) l.later l.earlier l.bend }
{
    if let Bend::Middle(i) = l.bend {
        let later = usize::from(l.later);
        let to = view.drawing.table.point(later);
        return middle_port(view.x[later - 1], to.y, to.h as u16, i);
    }
    let earlier = usize::from(l.earlier);
    let from = view.drawing.table.point(earlier);
    let x = view.x[earlier - 1];
    match l.bend {
        Bend::Left(j) => left_port(x, from.y, from.dl, j),
        Bend::Right(j) => right_port(x, from.y, from.dr, j),
        Bend::NoBend | Bend::Middle(_) => Place { x, y: from.y },
    }
}
