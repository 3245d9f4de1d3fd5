// One adding call on the lent drawing: tested, placed, stored. Work for its run and its lines, and nothing else.
// For the crates above: it asks for a stored drawing, which they have.
#![tactic(auto)]

ghost use Rattle.std.specs.Prelude.{◌≡◌, ◌-◌, ◌<◌, length};
ghost use Rattle.store_links.specs.Placing.{entry_point, change_from, all_reach_from, inner_count};
ghost use Rattle.store_links.specs.Runs.{Within};
ghost use Rattle.store_links.specs.Storing.{spot_for};
ghost use Rattle.store_tables.specs.Tables.{arrays_in};
ghost use Rattle.store_tables.specs.Columns.{point_at};
ghost use Rattle.store_laws.specs.Stored.{Stored};
ghost use Rattle.store_placing.specs.Small.{Small};
ghost use Rattle.store_adding.specs.Calls.{Runs, ports_by, Answered};

use rules::{Answer, Refusal, Style};
use store_links::Spot;
use store_tables::{Drawing, Point, Table};

// The point of entry i, as the table keeps it.
fn end_point(e: &[u16], i: usize, table: &Table) -> Point
    requires { (i < length e.now) × Within 1024 e.now }
    ensures { result ≡ point_at (arrays_in table.now) (entry_point e.now i) }
{
    table.point(words::point_of(e[i]))
}

// Where the new point goes, over the run of the entries.
fn spot_over(style: Style, e: &[u16], table: &Table) -> Spot
    requires { Runs e.now (arrays_in table.now) }
    ensures { result ≡ spot_for style (arrays_in table.now) e.now }
{
    let wl = end_point(e, 0, table);
    let wr = end_point(e, e.len() - 1, table);
    let far = store_placing::way_over(e, table);
    store_placing::spot_of(style, far, wl.y, wr.y, wl.dr, wr.dl, e.len())
}

// From which index on the inner points take the next middle port, or none, which is 25. Straight lines take no port: nothing is tested, and any index does.
fn ports_over(style: Style, e: &[u16], table: &Table, p: Spot) -> Option<usize>
    requires { Runs e.now (arrays_in table.now) × Small p }
    ensures { let a = arrays_in table.now in let es = e.now in
        result ≡ ports_by style (length es - 1) (change_from p a.gap a.ys es 1 (inner_count es)) (all_reach_from p a.gap a.ys es 1 (inner_count es)) }
{
    let Style::OneBend = style else {
        return Some(e.len() - 1);
    };
    store_placing::ports_of(p, table, e)
}

// Adds a point with the entries e as its earlier neighbours; or refuses and leaves the drawing as it is.
// Not taken into a loop over calls, where it would have fewer registers.
#[inline(never)]
pub fn add(d: &mut Drawing, e: &[u16]) -> Answer<()>
    requires { Stored d.old }
    ensures { Answered d.old e.now d.new result }
{
    store_judging::judge(e, d)?;
    let style = d.counts.style;
    let p = spot_over(style, e, &d.table);
    let from = ports_over(style, e, &d.table, p).ok_or(Refusal::NoReach.at(0))?;
    store_calls::store(d, e, p, from);
    d.counts = store_links::counts_with(d.counts, e.len());
    Ok(())
}
