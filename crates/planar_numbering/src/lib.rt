// The numbering: the points of a net that is taken, with their vertices and entries, counted down from point n.
// For the import: `number` asks for a net that 15 doesn't refuse.
#![tactic(auto)]

mod points;

ghost use Rattle.std.specs.Prelude.{◌≡◌, ◌+◌, ◌-◌, ◌<◌, ◌≤◌, length, get_or, [], ◌++◌, take, drop};
ghost use Rattle.planar_rules.specs.PlanarCode.{place, run, gather, after};
ghost use Rattle.planar_sphere.specs.Flat.{Valid};
ghost use Rattle.planar_order.specs.Model.{Distinct};
ghost use Rattle.planar_reading.specs.Reads.{net_in};
ghost use Rattle.planar_numbering.specs.Gathering.{Gatherable, Gathered};
ghost use Rattle.planar_numbering.specs.Numbered.{Beginning, Readied, TopNumberedIn, NextNumberedIn, CountedDownIn, AllNumberedIn};

use planar_choosing::{Row, choose};
use planar_reading::Net;
use planar_rules::{ENTRY_ROOM, VERTEX_ROOM};
pub use points::Points;

// Puts the neighbours from place d0 on, clockwise, up to left, into entries from s down: they stand there from left to right.
// Returns where they begin. It walks round a list until left comes, so the loop has no index for a `for`.
// No method of `Points`: it would have to promise that vertices and counts stay, and its callers count and lend what lies
// between s and the place that is returned.
fn gather_run(net: &Net, d0: usize, left: u8, entries: &mut [u8; ENTRY_ROOM], s: usize) -> usize
    requires { Gatherable (net_in net.now) left d0 s × (length entries.old ≡ 768) }
    ensures { Gathered (gather (net_in net.now) left (net_in net.now).D d0 []) s entries.old entries.new result }
{
    let mut at = d0;
    let mut e = s;
    loop {
        let u = net.neighbour(at);
        e -= 1;
        entries[e] = u;
        if u == left {
            return e;
        }
        at = net.after(at);
    }
}

// Puts the entries of a point there: the neighbours of its vertex v from right, clockwise, to left.
#[tactic(auto, unfolding(planar_rules::specs::PlanarCode::run))]
fn gather_entries(
    net: &Net,
    v: u8,
    left: u8,
    right: u8,
    entries: &mut [u8; ENTRY_ROOM],
    s: usize,
) -> usize
    requires { (v < (net_in net.now).n) × Gatherable (net_in net.now) left (place (net_in net.now) v right) s × (length entries.old ≡ 768) }
    ensures { Gathered (run (net_in net.now) v left right) s entries.old entries.new result }
{
    let d0 = net.place_of(v, right).unwrap();
    gather_run(net, d0, left, entries, s)
}

// The row of these vertices.
fn row_of(list: &[u8]) -> Row
    requires { (length list.now ≤ 255) × Distinct list.now }
    ensures { result ≡ list.now }
{
    let mut vertices = [0; VERTEX_ROOM];
    vertices[..list.len()].copy_from_slice(list);
    Row::new(vertices, list.len())
}

// The boundary with these entries in place of its three vertices from the a-th on.
fn without(boundary: &[u8], a: usize, entries: &[u8]) -> Row
    requires within { (a + 3 ≤ length boundary.now) × (length boundary.now + length entries.now ≤ 258) }
    requires different { Distinct (take a boundary.now ++ (entries.now ++ drop (a + 3) boundary.now)) }
    ensures { result ≡ take a boundary.now ++ (entries.now ++ drop (a + 3) boundary.now) }
{
    let behind = &boundary[a + 3..];
    let b = a + entries.len();
    let c = b + behind.len();
    let mut vertices = [0; VERTEX_ROOM];
    vertices[..a].copy_from_slice(&boundary[..a]);
    vertices[a..b].copy_from_slice(entries);
    vertices[b..c].copy_from_slice(behind);
    Row::new(vertices, c)
}

// Numbers the next point, the one with index k. Returns the boundary without it.
fn number_next(net: &Net, boundary: &Row, k: usize, points: &mut Points) -> Row
    requires { Readied (net_in net.now) boundary.now k points.old × (2 ≤ k) }
    ensures { NextNumberedIn (net_in net.now) boundary.now k points.old points.new result }
{
    let vertices = boundary.as_slice();
    let t = choose(net, boundary).unwrap();
    let v = vertices[t];
    let left = vertices[t - 1];
    let right = vertices[t + 1];
    let s = points.from;
    let e = gather_entries(net, v, left, right, &mut points.entries, s);
    points.vertices[k] = v;
    points.counts[k] = (s - e) as u8;
    points.from = e;
    without(vertices, t - 1, &points.entries[e..s])
}

// Numbers point n. Returns its entries, from vertex 1 to its first listed neighbour: the first boundary.
fn number_top(net: &Net, points: &mut Points) -> Row
    requires { Beginning (net_in net.now) points.old }
    ensures { TopNumberedIn (net_in net.now) result points.new }
{
    let right = net.neighbour(0);
    let v = net.neighbour(net.after(0));
    let s = gather_entries(net, v, 0, right, &mut points.entries, ENTRY_ROOM);
    let len = ENTRY_ROOM - s;
    let k = usize::from(net.n()) - 1;
    points.vertices[k] = v;
    points.counts[k] = len as u8;
    points.from = s;
    row_of(&points.entries[s..])
}

// Numbers points n - 1 to 3, in this order, where point n is numbered and `first` is the boundary.
fn count_down(net: &Net, first: Row, points: &mut Points)
    requires { TopNumberedIn (net_in net.now) first points.old }
    ensures { CountedDownIn (net_in net.now) points.new }
{
    let mut boundary = first;
    for k in (2..usize::from(net.n()) - 1).rev() {
        boundary = number_next(net, &boundary, k, points);
    }
}

// Numbers all points.
pub fn number(net: &Net) -> Points
    requires { Valid (net_in net.now) × ((net_in net.now).own 0 ≡ 0) }
    ensures { AllNumberedIn (net_in net.now) result }
{
    let mut points = Points {
        vertices: [0; VERTEX_ROOM],
        counts: [0; VERTEX_ROOM],
        entries: [0; ENTRY_ROOM],
        from: ENTRY_ROOM,
    };
    let first = number_top(net, &mut points);
    count_down(net, first, &mut points);
    points.vertices[0] = 0;
    points.vertices[1] = net.neighbour(0);
    points.counts[0] = 0;
    points.counts[1] = 1;
    points.from -= 1;
    points.entries[points.from] = 0;
    points
}
