// Look-ups in a stored drawing: a point, a line, a cut line.
// For `drawing`, whose look-ups by value are doors to these, and for `cutter` and `panel_c`, which are lent drawings.
#![tactic(auto)]

ghost use Rattle.std.specs.Prelude.{◌≡◌, ◌≤◌, ltb};
ghost use Rattle.rules.specs.declared.Refusal.TheVariants.{Unfinished};
ghost use Rattle.rules.specs.Refusals.{answer, refuse_if};
ghost use Rattle.rules.specs.Basics.{between};
ghost use Rattle.rules.specs.Points.{Drawing as Plan};
ghost use Rattle.rules.specs.Lookups.{look_point, look_line, LooksCut};
ghost use Rattle.answers.specs.Told.{point_seen, line_seen, told_cut};
ghost use Rattle.store_links.specs.Opening.{no_points};
ghost use Rattle.store_laws.specs.Stored.{Is, Stored};
ghost use Rattle.store_tables.specs.Tables.{arrays_in};
ghost use Rattle.store_settling.specs.Placed.{Settleable, Settled};
ghost use Rattle.store_looking.specs.Places.{Looks};
ghost use Rattle.store_looking.specs.Cuts.{cut_to, FirstCut};

use answers::LineSeen;
use rules::{Answer, Line, Place, Refusal, Style};
use store_links::Counts;
use store_settling::{View, bend_of};
use store_tables::{Drawing, POINTS};

// The x of every placed point. A fixed array, since the project has no heap.
pub fn settled(d: &Drawing) -> [u16; POINTS]
    requires { Settleable no_points (arrays_in d.now.table) d.now.counts.k }
    ensures { Settled result (arrays_in d.now.table) d.now.counts.k }
{
    let mut x = [0u16; POINTS];
    store_settling::settle(&mut x, d);
    x
}

// 22 while points are missing.
pub fn finished(c: Counts) -> Answer<()>
    ensures { result ≡ answer (refuse_if (ltb c.k c.n) Unfinished 0) }
{
    if c.k < c.n {
        return Err(Refusal::Unfinished.at(0));
    }
    Ok(())
}

// p is a placed point, of k points.
fn is_point(k: usize, p: usize) -> bool
    ensures { result ≡ between 1 k p }
{
    1 <= p && p <= k
}

// A point's place.
pub fn look_point(view: &View, p: usize) -> Answer<Place>
    requires { Looks view.now.drawing.now view.now.x.now }
    ensures { (q : Plan) → Is q view.now.drawing.now → result ≡ point_seen (look_point q p) }
{
    if !is_point(view.drawing.counts.k, p) {
        return Err(Refusal::NoSuch.at(0));
    }
    Ok(Place {
        x: view.x[p - 1],
        y: view.drawing.table.point(p).y,
    })
}

// A line with its ends, bend and kind, and where its bend lies. A straight one has no bend.
pub fn look_line(view: &View, e: usize) -> Answer<LineSeen>
    requires { Looks view.now.drawing.now view.now.x.now }
    ensures { (q : Plan) → Is q view.now.drawing.now → result ≡ line_seen (look_line q e) }
{
    let d = view.drawing;
    if d.counts.lines <= e {
        return Err(Refusal::NoSuch.at(0));
    }
    let l = d.table.lines[e];
    let style = d.counts.style;
    let Style::OneBend = style else {
        return Ok(LineSeen::Straight(l));
    };
    Ok(LineSeen::Bent(l, bend_of(view, l)))
}

// A line is cut and ends at p.
fn is_cut_to(l: Line, p: usize) -> bool
    ensures { result ≡ cut_to l p }
{
    words::is_cut(l.kind) && (usize::from(l.later) == p || usize::from(l.earlier) == p)
}

// The first cut line that ends at p.
// Not by position, of which the library has no law by recursion.
#[tactic(auto, unfolding(crate::specs::Cuts::cut_at))]
fn first_cut(d: &Drawing, p: usize) -> Option<usize>
    requires { d.now.counts.lines ≤ 3072 }
    ensures { FirstCut (arrays_in d.now.table) d.now.counts.lines p result }
{
    for e in 0..d.counts.lines {
        if is_cut_to(d.table.lines[e], p) {
            return Some(e);
        }
    }
    None
}

// Some cut line that ends at p, or that there is none.
pub fn look_cut(d: &Drawing, p: usize) -> Answer<Option<usize>>
    requires { Stored d.now }
    ensures { (q : Plan) → Is q d.now → LooksCut q p (told_cut result) }
{
    if !is_point(d.counts.k, p) {
        return Err(Refusal::NoSuch.at(0));
    }
    Ok(first_cut(d, p))
}
