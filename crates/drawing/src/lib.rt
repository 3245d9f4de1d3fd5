// The drawing by value: opening, adding, look-ups. It wraps the core over a lent drawing and copies at entry and exit only.
#![tactic(auto)]

ghost use Rattle.std.specs.Prelude.{◌≡◌};
ghost use Rattle.rules.specs.Refusals.{told};
ghost use Rattle.rules.specs.Points.{Drawing as Plan};
ghost use Rattle.rules.specs.Lookups.{look_point, look_line, LooksCut};
ghost use Rattle.answers.specs.Told.{told_point, told_line, told_cut};
ghost use Rattle.store_laws.specs.Stored.{Is};
ghost use Rattle.drawing.specs.View.{Came};
ghost use Rattle.drawing.specs.Opens.{OpenFor, Opens};
ghost use Rattle.drawing.specs.Adds.{AddsTo};
ghost use Rattle.drawing.specs.Places.{IsPlaced};

use answers::LineSeen;
use rules::{Answer, FEWEST_POINTS, MOST_POINTS, Place, Refusal, Style};
use store_settling::View;
pub use store_tables::Drawing;
use store_tables::POINTS;

// A drawing with the x of every placed point, settled once for many look-ups.
// That it is stored and settled stands in contracts: a type may not ask more than it did. x isn't a field of a point: adding moves points without telling where to.
#[derive(Clone, Copy)]
pub struct Placed {
    pub drawing: Drawing,
    pub x: [u16; POINTS],
}

impl Placed {
    // Both parts, lent.
    pub fn view<'a>(&'a self) -> View<'a>
        ensures drawing { result.drawing.now ≡ self.now.drawing }
        ensures x { result.x.now ≡ self.now.x }
    {
        View {
            drawing: &self.drawing,
            x: &self.x,
        }
    }
}

// The drawing as opened: points 1, 2, 3 and their three cut lines.
fn as_opened(style: Style, n: usize) -> Drawing
    ensures { OpenFor style n result }
{
    let mut d = Drawing::blank();
    store_points::open_in(&mut d, style, n, 1, 1, 1, 2);
    d
}

// Opens a drawing of this style for n points.
pub fn open(style: Style, n: usize) -> Answer<Drawing>
    ensures { Opens style n result }
{
    if n < FEWEST_POINTS || MOST_POINTS < n {
        return Err(Refusal::OutOfRange.at(0));
    }
    Ok(as_opened(style, n))
}

// Gives the drawing with a point more, whose earlier neighbours are the entries e, or refuses.
pub fn add(d: Drawing, e: &[u16]) -> Answer<Drawing>
    requires { Came d }
    ensures { AddsTo d e.now result }
{
    let mut next = d;
    store_adding::add(&mut next, e)?;
    Ok(next)
}

// The drawing with its x settled.
pub fn settle(d: Drawing) -> Placed
    requires { Came d }
    ensures { (result.drawing ≡ d) × IsPlaced result }
{
    let x = store_looking::settled(&d);
    Placed { drawing: d, x }
}

// A point's place.
pub fn point_at(v: Placed, p: usize) -> Answer<Place>
    requires { IsPlaced v }
    ensures { (q : Plan) → Is q v.drawing → told_point result ≡ told (look_point q p) }
{
    store_looking::look_point(&v.view(), p)
}

// The same, where one look-up is enough.
pub fn point(d: Drawing, p: usize) -> Answer<Place>
    requires { Came d }
    ensures { (q : Plan) → Is q d → told_point result ≡ told (look_point q p) }
{
    point_at(settle(d), p)
}

// A line with its ends and kind, and, in a one-bend drawing, its bend and where that lies.
pub fn line_at(v: Placed, e: usize) -> Answer<LineSeen>
    requires { IsPlaced v }
    ensures { (q : Plan) → Is q v.drawing → told_line result ≡ told (look_line q e) }
{
    store_looking::look_line(&v.view(), e)
}

// The same, where one look-up is enough.
pub fn line(d: Drawing, e: usize) -> Answer<LineSeen>
    requires { Came d }
    ensures { (q : Plan) → Is q d → told_line result ≡ told (look_line q e) }
{
    line_at(settle(d), e)
}

// Some cut line that ends at p, or that there is none.
pub fn cut_line(d: Drawing, p: usize) -> Answer<Option<usize>>
    requires { Came d }
    ensures { (q : Plan) → Is q d → LooksCut q p (told_cut result) }
{
    store_looking::look_cut(&d, p)
}
