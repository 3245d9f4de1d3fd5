// What an accepted adding call stores into the lent drawing: its point, by `store_points`, and its lines.
// For `store_adding`: it asks for entries that passed the tests, and for the new point's place.
#![tactic(auto)]

ghost use Rattle.std.specs.Prelude.{◌≡◌, suc, length};
ghost use Rattle.store_links.specs.Storing.{filled, new_line, with_point};
ghost use Rattle.store_tables.specs.Tables.{arrays_in};
ghost use Rattle.store_calls.specs.Storable.{Pushable, Storable};

use rules::Line;
use store_links::{Counts, Spot, line_of, new_bend};
use store_points::{cover, link};
use store_tables::{Drawing, LINES};
use styles::bent;
use words::point_of;

// A line for each entry, from the new point, behind the lines that are there.
// By index: i goes into the line's place and its bend.
#[tactic(auto, unfolding(store_links::specs::Storing::filled))]
fn push_lines(e: &[u16], lines: &mut [Line; LINES], c: Counts, rights: u16, lefts: u16, from: usize)
    requires { Pushable e.now c }
    ensures { lines.new ≡ filled (new_line c.style (suc c.k) rights lefts from e.now) lines.old c.lines (length e.now) }
{
    let new = (c.k + 1) as u16;
    let last = e.len() - 1;
    for i in 0..e.len() {
        let bend = bent(c.style, new_bend(rights, lefts, last, from, i));
        lines[c.lines + i] = line_of(new, bend, e[i]);
    }
}

// The new point over the run of the entries e, at the spot p, and its lines, with middle ports that change at `from`. The numbers stay.
pub fn store(d: &mut Drawing, e: &[u16], p: Spot, from: usize)
    requires { Storable (arrays_in d.old.table) d.old.counts e.now p }
    ensures arrays { arrays_in d.new.table ≡ with_point (arrays_in d.old.table) d.old.counts e.now p from }
    ensures counts { d.new.counts ≡ d.old.counts }
{
    let style = d.counts.style;
    let v = d.counts.k + 1;
    let new = v as u16;
    let wl = point_of(e[0]);
    let wr = point_of(e[e.len() - 1]);
    cover(e, &mut d.table, p, new);
    let (rights, lefts) = link(&mut d.table, style, v, wl, wr, p);
    push_lines(e, &mut d.table.lines, d.counts, rights, lefts, from);
}
