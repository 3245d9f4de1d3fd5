// Whether a net is taken: what 15 asks, over the net in arrays.
#![tactic(auto)]

ghost use Rattle.std.specs.Prelude.{◌≡◌, true, false, ℕ, ◌<◌, length, get_or, eqb, IfSome, IfNone};
ghost use Rattle.planar_rules.specs.PlanarCode.{after, not_self?, not_twice?, in_both?, faces?, joined?, taken?, all};
ghost use Rattle.planar_reading.specs.Reads.{net_in};
ghost use Rattle.planar_judging.specs.Laws.{Backs, Relabelled, Merged, sound_lists?, sound_faces?};

use planar_reading::Net;
use planar_rules::{PLACE_ROOM, VERTEX_ROOM};

// Whether "no list names its own vertex".
fn not_self(net: &Net) -> bool
    ensures { result ≡ not_self? (net_in net.now) }
{
    for i in 0..net.places() {
        if net.neighbour(i) == net.owner(i) {
            return false;
        }
    }
    true
}

// Whether none names "one vertex twice": marks[u] is whose list named u last. The lists stand one behind another, so one pass
// tells.
fn not_twice(net: &Net) -> bool
    ensures { result ≡ not_twice? (net_in net.now) }
{
    let mut marks = [None; VERTEX_ROOM];
    for i in 0..net.places() {
        let v = net.owner(i);
        let u = usize::from(net.neighbour(i));
        if marks[u] == Some(v) {
            return false;
        }
        marks[u] = Some(v);
    }
    true
}

// Where each line stands in the other list, if "every line stands in both lists".
fn in_both(net: &Net) -> Option<[u16; PLACE_ROOM]>
    ensures some { IfSome result (λ backs. (in_both? (net_in net.now) ≡ true) × Backs (net_in net.now) backs) }
    ensures none { IfNone result (in_both? (net_in net.now) ≡ false) }
{
    let mut backs = [0; PLACE_ROOM];
    for i in 0..net.places() {
        let e = net.place_of(net.neighbour(i), net.owner(i))?;
        backs[i] = e as u16;
    }
    Some(backs)
}

// The next side of a face: over the line, and to the next place clockwise.
fn side_of(net: &Net, backs: &[u16; PLACE_ROOM], d: usize) -> usize
    requires { (d < 1536) × (get_or backs.now d 0 < 1536) }
    ensures { result ≡ after (net_in net.now) (get_or backs.now d 0) }
{
    net.after(usize::from(backs[d]))
}

// Whether "every face has three sides".
fn faces(net: &Net, backs: &[u16; PLACE_ROOM]) -> bool
    requires { Backs (net_in net.now) backs.now }
    ensures { result ≡ faces? (net_in net.now) }
{
    for i in 0..net.places() {
        let a = side_of(net, backs, i);
        let b = side_of(net, backs, a);
        let c = side_of(net, backs, b);
        if c != i {
            return false;
        }
    }
    true
}

// Gives label b to all that have label a.
fn relabel(labels: &mut [u8], a: u8, b: u8)
    ensures { Relabelled (length labels.old) a b labels.old labels.new }
{
    for label in labels.iter_mut() {
        if *label == a {
            *label = b;
        }
    }
}

// Gives all that have v's label that of u, for a line from v to u.
fn join(labels: &mut [u8], v: u8, u: u8)
    requires { (v < length labels.old) × (u < length labels.old) }
    ensures { Merged (length labels.old) v u labels.old labels.new }
{
    let a = labels[usize::from(v)];
    let b = labels[usize::from(u)];
    if a != b {
        relabel(labels, a, b);
    }
}

// Each vertex's own label, as before the first line.
fn own_labels() -> [u8; VERTEX_ROOM]
    ensures { (x : ℕ) → x < 256 → get_or result x 0 ≡ x }
{
    let mut labels = [0; VERTEX_ROOM];
    for x in 0..VERTEX_ROOM {
        labels[x] = x as u8;
    }
    labels
}

// Whether all have one label.
fn one_label(labels: &[u8]) -> bool
    ensures { result ≡ all (λ x. eqb (get_or labels.now x 0) (get_or labels.now 0 0)) (length labels.now) }
{
    for &b in labels {
        if b != labels[0] {
            return false;
        }
    }
    true
}

// Whether "all is connected".
fn joined(net: &Net) -> bool
    ensures { result ≡ joined? (net_in net.now) }
{
    let mut room = own_labels();
    let labels = &mut room[..usize::from(net.n())];
    for i in 0..net.places() {
        join(labels, net.owner(i), net.neighbour(i));
    }
    one_label(labels)
}

// Whether no list names its own vertex or one vertex twice, and all is connected.
fn sound_lists(net: &Net) -> bool
    ensures { result ≡ sound_lists? (net_in net.now) }
{
    not_self(net) && not_twice(net) && joined(net)
}

// Whether every line stands in both lists, and every face has three sides.
fn sound_faces(net: &Net) -> bool
    ensures { result ≡ sound_faces? (net_in net.now) }
{
    match &in_both(net) {
        Some(backs) => faces(net, backs),
        None => false,
    }
}

// Whether the net is taken: what 15 asks, with the count first, since it is the cheapest.
pub fn taken(net: &Net) -> bool
    ensures { result ≡ taken? (net_in net.now) }
{
    let places = net.places() + 12;
    if places != 6 * usize::from(net.n()) {
        return false;
    }
    sound_lists(net) && sound_faces(net)
}
