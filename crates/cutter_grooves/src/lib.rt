// A line of a drawing, as it is cut. For `cutter`: it asks for a stored drawing with its x settled.
#![tactic(auto)]

ghost use Rattle.std.specs.Prelude.{◌≡◌, ◌≤◌, ◌<◌};
ghost use Rattle.rules.specs.Points.{Drawing as Plan, place_of, line_at};
ghost use Rattle.store_laws.specs.Stored.{Is};
ghost use Rattle.cutter_lines.specs.Grooves.{GrooveOnGrid};
ghost use Rattle.drawing.specs.Places.{PlacedIn};
ghost use Rattle.cutter_grooves.specs.Grid.{line_in, bend_in};
ghost use Rattle.cutter_grooves.specs.Grooves.{groove_of};

use answers::LineSeen;
use cutter_lines::Groove;
use rules::{Line, Place};
use store_settling::View;

// The place of a placed point.
fn place_of(view: &View, p: u16) -> Place
    requires placed { PlacedIn view.now.drawing.now view.now.x.now }
    requires there { (1 ≤ p) × (p ≤ view.now.drawing.now.counts.k) }
    ensures { (q : Plan) → Is q view.now.drawing.now → result ≡ place_of q p }
{
    store_looking::look_point(view, usize::from(p)).unwrap()
}

// The line that was seen.
fn line_of(seen: LineSeen) -> Line
    ensures { result ≡ line_in seen }
{
    match seen {
        LineSeen::Bent(l, _) | LineSeen::Straight(l) => l,
    }
}

// Where it bends; of a straight line, which doesn't, the place of its earlier end stands for that.
fn bend_of(seen: LineSeen, earlier: Place) -> Place
    ensures { result ≡ bend_in seen earlier }
{
    match seen {
        LineSeen::Bent(_, bend) => bend,
        LineSeen::Straight(_) => earlier,
    }
}

// Line e, as it is cut.
pub fn groove_of(view: &View, e: usize) -> Groove
    requires placed { PlacedIn view.now.drawing.now view.now.x.now }
    requires there { e < view.now.drawing.now.counts.lines }
    ensures is { (q : Plan) → Is q view.now.drawing.now → result ≡ groove_of q (line_at q e) }
    ensures fits { GrooveOnGrid result }
{
    let seen = store_looking::look_line(view, e).unwrap();
    let line = line_of(seen);
    let later = place_of(view, line.later);
    let earlier = place_of(view, line.earlier);
    Groove {
        kind: line.kind,
        later,
        bend: bend_of(seen, earlier),
        earlier,
    }
}
