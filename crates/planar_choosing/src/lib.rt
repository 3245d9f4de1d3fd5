// Which vertex comes off the boundary next: the lowest one that is joined to no boundary vertex but the two beside it.
#![tactic(auto)]

mod row;

ghost use Rattle.std.specs.Prelude.{◌≡◌, true, ◌<◌};
ghost use Rattle.rules.specs.Basics.{index_of};
ghost use Rattle.planar_rules.specs.PlanarCode.{free?, open?};
ghost use Rattle.planar_reading.specs.Reads.{net_in};
ghost use Rattle.planar_choosing.specs.Rows.{inside?};
ghost use Rattle.planar_choosing.specs.Free.{no_chord?};
ghost use Rattle.planar_choosing.specs.Choosing.{chosen};

use planar_reading::Net;
pub use row::Row;

// Whether a line from the boundary's t-th vertex, from 0, to u is no chord.
fn no_chord(boundary: &Row, t: usize, u: u8) -> bool
    requires { t < 256 }
    ensures { result ≡ no_chord? boundary.now t u }
{
    match boundary.index_of(u) {
        Some(l) => l == t + 1 || l + 1 == t,
        None => true,
    }
}

// Whether none of the lines of v, a vertex of the boundary, is a chord.
fn free(net: &Net, boundary: &Row, v: u8) -> bool
    requires vertex { v < (net_in net.now).n }
    requires there { inside? boundary.now v ≡ true }
    ensures { result ≡ free? (net_in net.now) boundary.now (index_of v boundary.now) }
{
    let t = boundary.index_of(v).unwrap();
    for &u in net.list(v) {
        if !no_chord(boundary, t, u) {
            return false;
        }
    }
    true
}

// Whether v is on the boundary, is no end of it, and has no chord.
fn open(net: &Net, boundary: &Row, v: u8) -> bool
    requires { v < (net_in net.now).n }
    ensures { result ≡ open? (net_in net.now) boundary.now v }
{
    boundary.is_inside(v) && free(net, boundary, v)
}

// Where on the boundary the vertex stands that comes off next.
pub fn choose(net: &Net, boundary: &Row) -> Option<usize>
    ensures { result ≡ chosen (net_in net.now) boundary.now }
{
    for v in 0..net.n() {
        if open(net, boundary, v) {
            return boundary.index_of(v);
        }
    }
    None
}
