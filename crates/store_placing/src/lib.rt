// Steps 1 to 5 of an adding call, by distances from wl: where the new point goes, and which ports reach the inner points.
// Every function reads, none stores.
// For `store_adding`: they ask for entries that passed the tests, and for numbers that fit. Both stand in contracts: entries are the caller's own slice, and a type for a spot of small numbers would be no plainer, since its maker doesn't need that they are small.
#![tactic(auto)]

ghost use Rattle.std.specs.Prelude.{◌≡◌, ◌||◌, suc, ◌+◌, ◌-◌, ◌/◌, ◌<◌, ◌≤◌, length};
ghost use Rattle.rules.specs.Adding.{reaches};
ghost use Rattle.store_links.specs.Placing.{entry_point, way, spot_of, change_from, all_reach_from, inner_count};
ghost use Rattle.store_links.specs.Runs.{Within};
ghost use Rattle.store_tables.specs.Tables.{arrays_in};
ghost use Rattle.store_placing.specs.Small.{Small, Tested};
ghost use Rattle.store_placing.specs.Ports.{ports_for};

use rules::Style;
use store_links::Spot;
use store_tables::Table;
use styles::{amount, inset};
use words::point_of;

// The earlier point of entry i.
fn point_at(e: &[u16], i: usize) -> usize
    requires { (i < length e.now) × Within 1024 e.now }
    ensures { (result ≡ entry_point e.now i) × (0 < result) × (result ≤ 1024) }
{
    point_of(e[i])
}

// How far the last entry's point lies to the right of the first entry's.
// By index, as its definition.
pub fn way_over(e: &[u16], table: &Table) -> usize
    requires { (0 < length e.now) × (length e.now ≤ 1024) × Within 1024 e.now }
    ensures { result ≡ way (arrays_in table.now).gap e.now (length e.now - 1) }
{
    let last = e.len() - 1;
    let mut far = 0;
    for i in 0..last {
        let point = table.point(point_at(e, i + 1));
        far += usize::from(point.gap);
    }
    far
}

// h: the height of the middle row, D/2 rounded up, where D is one less than the entries.
fn row_height(entries: usize) -> usize
    ensures { result ≡ entries / 2 }
{
    entries / 2
}

// Steps 1 to 4: where the new point goes, if wr lies `far` to the right of wl.
#[tactic(auto, unfolding(store_links::specs::Placing::spot_of))]
pub fn spot_of(
    style: Style,
    far: usize,
    yl: u16,
    yr: u16,
    rights: u16,
    lefts: u16,
    entries: usize,
) -> Spot
    requires { (far < 4294967296) × (yl ≤ far + yr) × (yr ≤ far + yl) }
    ensures { result ≡ spot_of style far yl yr rights lefts entries }
{
    let s1 = amount(style, rights);
    let widened = far + s1 + amount(style, lefts);
    let left = usize::from(yl);
    let right = usize::from(yr);
    let total = widened + (widened + left + right) % 2;
    let dx = (total + right - left) / 2;
    let inside = inset(style);
    let y = (total + right + left - 2 * inside) / 2;
    let h = row_height(entries);
    let rest = total - dx;
    Spot { dx, y, h, s1, rest }
}

// Whether a middle port of the new point reaches the point a to the right of wl, at height y.
fn port_reaches(p: Spot, port: usize, a: usize, y: usize) -> bool
    requires { Small p × (port ≤ 1024) × (a < 8589934592) × (y < 65536) }
    ensures { result ≡ reaches p.dx p.y p.h port a y }
{
    let dx = p.dx;
    let top = p.y;
    let h = p.h;
    dx + port + y <= a + top && a + y + 2 * h <= dx + top + port
}

// Whether middle port `port` or the one after it reaches that point.
fn either_reaches(p: Spot, port: usize, a: usize, y: usize) -> bool
    requires { Small p × (port < 1024) × (a < 8589934592) × (y < 65536) }
    ensures { result ≡ (reaches p.dx p.y p.h port a y || reaches p.dx p.y p.h (suc port) a y) }
{
    port_reaches(p, port, a, y) || port_reaches(p, port + 1, a, y)
}

// Step 5: the index of the inner point from which ports change to i + 1, the first that port i doesn't reach.
// It stays a labelled loop that breaks with the index: document 01 asks for that form.
fn change_at(p: Spot, table: &Table, e: &[u16]) -> usize
    requires { Tested p e.now }
    ensures { result ≡ change_from p (arrays_in table.now).gap (arrays_in table.now).ys e.now 1 (inner_count e.now) }
{
    let last = e.len() - 1;
    let mut a = p.s1;
    let mut passed = 0;
    let at = 'scan: loop {
        let i = passed + 1;
        if last <= i {
            break 'scan last;
        }
        let point = table.point(point_at(e, i));
        a += usize::from(point.gap);
        let y = usize::from(point.y);
        if !port_reaches(p, i, a, y) {
            break 'scan i;
        }
        passed = i;
    };
    at
}

// 25 is false: every inner point i reaches port i or port i + 1.
fn all_reach(p: Spot, table: &Table, e: &[u16]) -> bool
    requires { Tested p e.now }
    ensures { result ≡ all_reach_from p (arrays_in table.now).gap (arrays_in table.now).ys e.now 1 (inner_count e.now) }
{
    let inner = e.len() - 2;
    let mut a = p.s1;
    for i in 0..inner {
        let point = table.point(point_at(e, i + 1));
        a += usize::from(point.gap);
        let y = usize::from(point.y);
        if !either_reaches(p, i + 1, a, y) {
            return false;
        }
    }
    true
}

// Step 5: which middle ports the inner points take: port i + 1 from this index on, and port i before it; or none, which is 25.
// Where port i reaches every one, 25 isn't looked for.
pub fn ports_of(p: Spot, table: &Table, e: &[u16]) -> Option<usize>
    requires { Tested p e.now }
    ensures { result ≡ ports_for (change_from p (arrays_in table.now).gap (arrays_in table.now).ys e.now 1 (inner_count e.now)) (all_reach_from p (arrays_in table.now).gap (arrays_in table.now).ys e.now 1 (inner_count e.now)) }
{
    let last = e.len() - 1;
    let from = change_at(p, table, e);
    if from == last {
        return Some(from);
    }
    if !all_reach(p, table, e) {
        return None;
    }
    Some(from)
}
