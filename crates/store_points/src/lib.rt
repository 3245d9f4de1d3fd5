// The points in the lent table: those of a drawing as opened, and what changes at the points of a run and at the new point.
// For the crates above: opening asks for a drawing whose table is empty, the others for a run that passed the tests and for the new point's place.
#![tactic(auto)]

ghost use Rattle.std.specs.Prelude.{◌≡◌, ◌<◌, ◌≤◌, length, set};
ghost use Rattle.rules.specs.Styles as Styles;
ghost use Rattle.store_links.specs.Arrays.{at_point};
ghost use Rattle.store_links.specs.Placing.{inner_count};
ghost use Rattle.store_links.specs.Storing.{put_at};
ghost use Rattle.store_tables.specs.Tables.{arrays_in, zeros};
ghost use Rattle.store_points.specs.Storable.{Coverable, Linkable, Growable};
ghost use Rattle.store_points.specs.Stages.{covered, linked, ported};
ghost use Rattle.store_links.specs.Opening.{open_arrays, open_counts};

use rules::{Bend, Style};
use store_links::{Counts, GAP_OFFSET, Spot, line_of};
use store_tables::{Drawing, NO_POINT, Point, Table};
use styles::{bent, second_x, taken, third_x, third_y};
use words::point_of;

// The inner points of the run get the new point v as their owner, and their gaps count from it.
// By index, as its definition.
pub fn cover(e: &[u16], table: &mut Table, p: Spot, v: u16)
    requires { Coverable e.now (arrays_in table.old).gap p }
    ensures { arrays_in table.new ≡ covered (arrays_in table.old) e.now p v (inner_count e.now) }
{
    let last = e.len() - 2;
    let mut far = 0;
    for i in 0..last {
        let q = point_of(e[i + 1]);
        let inner = table.point(q);
        far += usize::from(inner.gap);
        let covered = Point {
            gap: (far + p.s1 + GAP_OFFSET - p.dx) as u16,
            owner: v,
            ..inner
        };
        table.put(q, covered);
    }
}

// The new point v stands on the boundary between wl and wr. It has no port; wl has one more at its right and wr at its left, where lines take ports: their indexes.
pub fn link(table: &mut Table, style: Style, v: usize, wl: usize, wr: usize, p: Spot) -> (u16, u16)
    requires { Linkable v wl wr p × Growable (arrays_in table.old).drs v wl × Growable (arrays_in table.old).dls v wr }
    ensures arrays { arrays_in table.new ≡ ported style (linked (arrays_in table.old) v wl wr p) v wl wr }
    ensures rights { result.0 ≡ Styles.taken style (at_point (arrays_in table.old).drs wl) }
    ensures lefts { result.1 ≡ Styles.taken style (at_point (arrays_in table.old).dls wr) }
{
    let rights = taken(style, table.point(wl).dr);
    let lefts = taken(style, table.point(wr).dl);
    let new = Point {
        next: wr as u16,
        gap: p.dx as u16,
        owner: 0,
        y: p.y as u16,
        dl: 0,
        dr: 0,
        h: p.h as u32,
    };
    table.put(v, new);
    let left = Point {
        next: v as u16,
        dr: rights,
        ..table.point(wl)
    };
    table.put(wl, left);
    let right = Point {
        gap: p.rest as u16,
        dl: lefts,
        ..table.point(wr)
    };
    table.put(wr, right);
    (rights, lefts)
}

// The first three of a list.
// Three stores, as the definition has them: of a copy each would have to be read back.
fn three<T: Copy>(list: &mut [T], a: T, b: T, c: T)
    requires { 2 < length list.old }
    ensures { list.new ≡ set (set (set list.old 0 a) 1 b) 2 c }
{
    list[0] = a;
    list[1] = b;
    list[2] = c;
}

// The three points and lines of a drawing of that style as opened for n points at the scale s; a, b and c are the entries of lines 1-2, 3-1 and 3-2.
#[tactic(auto, unfolding(store_links::specs::Opening::open_arrays))]
pub fn open_in(d: &mut Drawing, style: Style, n: usize, s: usize, a: u16, b: u16, c: u16)
    requires { d.old.table ≡ zeros }
    ensures { (arrays_in d.new.table ≡ open_arrays style a b c) × (d.new.counts ≡ open_counts style n s) }
{
    let x = third_x(style);
    let ports = taken(style, 0);
    let first = Point {
        next: 3,
        dr: ports,
        ..NO_POINT
    };
    let second = Point {
        gap: second_x(style) - x,
        dl: ports,
        ..NO_POINT
    };
    let third = Point {
        next: 2,
        gap: x,
        y: third_y(style),
        ..NO_POINT
    };
    three(&mut d.table.points, first, second, third);
    let lines = &mut d.table.lines;
    let ground = line_of(2, Bend::NoBend, a);
    let right = bent(style, Bend::Right(1));
    let left = bent(style, Bend::Left(1));
    three(lines, ground, line_of(3, right, b), line_of(3, left, c));
    d.counts = Counts {
        style,
        n,
        s,
        k: 3,
        m: 3,
        lines: 3,
    };
}
