// When two pieces of straight line meet, decided by the signs of whole-number cross products and, on one line, by overlap.
// The definitions are those of rules (Meeting); specs/ has the laws by which pieces are told apart, and `Turning` for the signs.
#![tactic(auto)]

ghost use Rattle.std.specs.Prelude.{◌≡◌, ◌&&◌, ◌||◌, ◌+◌, ◌*◌, min, max, pos};
ghost use Rattle.rules.specs.Meeting.{in_line, one_side, one_line, overlap, meet, same_place, only_if, meet_only_at};
ghost use Rattle.plane.specs.Turning.{above_zero, below_zero, Turns};

use rules::Place;

// a * b + c * d + e * f, signed; it fits whatever the numbers are.
fn products(a: u16, b: u16, c: u16, d: u16, e: u16, f: u16) -> i64
    ensures { result ≡ pos (a * b + c * d + e * f) }
{
    let sum = u64::from(a) * u64::from(b)
        + u64::from(c) * u64::from(d)
        + u64::from(e) * u64::from(f);
    sum as i64
}

// The cross product of q - p and r - p: above zero where r lies to the left of the line from p to q,
// zero where it lies on it (or p is q), below zero where it lies to the right.
#[tactic(auto, unfolding(rules::specs::Meeting::cross_minus, rules::specs::Meeting::cross_plus))]
pub fn orientation(p: Place, q: Place, r: Place) -> i64
    ensures { Turns p q r result }
{
    products(q.x, r.y, p.x, q.y, p.y, r.x) - products(q.x, p.y, p.x, r.y, q.y, r.x)
}

// Whether two orientations have the same sign, zero having none. `signum` would be no plainer: 0 and 0 would be alike.
fn same_sign(a: i64, b: i64) -> bool
    ensures { result ≡ (above_zero a && above_zero b || below_zero a && below_zero b) }
{
    a > 0 && b > 0 || a < 0 && b < 0
}

// Whether the numbers from a to b and those from c to d overlap.
#[tactic(auto, unfolding(rules::specs::Meeting::overlap))]
fn overlaps(a: u16, b: u16, c: u16, d: u16) -> bool
    ensures { result ≡ overlap a b c d }
{
    a.min(b) <= c.max(d) && c.min(d) <= a.max(b)
}

// The piece of straight line between two places.
#[derive(Clone, Copy, Debug, PartialEq, Eq)]
pub struct Piece {
    pub from: Place,
    pub to: Place,
}

impl Piece {
    // Whether a place lies on the line through its ends.
    fn has_in_line(self, r: Place) -> bool
        ensures { result ≡ in_line self.from self.to r }
    {
        orientation(self.from, self.to, r) == 0
    }

    // Whether both ends of the other lie on the line through its ends.
    fn has_both_in_line(self, other: Piece) -> bool
        ensures { result ≡ (in_line self.from self.to other.from && in_line self.from self.to other.to) }
    {
        self.has_in_line(other.from) && self.has_in_line(other.to)
    }

    // Whether the ends of both lie on one straight line.
    #[tactic(auto, unfolding(rules::specs::Meeting::one_line))]
    fn is_on_one_line_with(self, other: Piece) -> bool
        ensures { result ≡ one_line self.from self.to other.from other.to }
    {
        self.has_both_in_line(other) && other.has_both_in_line(self)
    }

    // Whether the ends of the other lie strictly on one side of the line through its ends.
    #[tactic(auto, unfolding(rules::specs::Meeting::one_side))]
    fn has_on_one_side(self, other: Piece) -> bool
        ensures { result ≡ one_side self.from self.to other.from other.to }
    {
        same_sign(
            orientation(self.from, self.to, other.from),
            orientation(self.from, self.to, other.to),
        )
    }

    // Whether the two pieces have a point in common.
    #[tactic(auto, unfolding(rules::specs::Meeting::meet))]
    pub fn meets(self, other: Piece) -> bool
        ensures { result ≡ meet self.from self.to other.from other.to }
    {
        let (p, q) = (self.from, self.to);
        let (r, s) = (other.from, other.to);
        if self.is_on_one_line_with(other) {
            overlaps(p.x, q.x, r.x, s.x) && overlaps(p.y, q.y, r.y, s.y)
        } else {
            !self.has_on_one_side(other) && !other.has_on_one_side(self)
        }
    }

    // Whether a place lies on it.
    fn holds(self, p: Place) -> bool
        ensures { result ≡ meet p p self.from self.to }
    {
        Piece { from: p, to: p }.meets(self)
    }

    // Whether a place, if it lies on it, is z.
    #[tactic(auto, unfolding(rules::specs::Meeting::only_if, rules::specs::Meeting::same_place))]
    fn holds_only(self, z: Place, p: Place) -> bool
        ensures { result ≡ only_if z p self.from self.to }
    {
        !self.holds(p) || p == z
    }

    // Whether each end of the other that lies on it is z.
    fn holds_ends_only(self, z: Place, other: Piece) -> bool
        ensures { result ≡ (only_if z other.from self.from self.to && only_if z other.to self.from self.to) }
    {
        self.holds_only(z, other.from) && self.holds_only(z, other.to)
    }

    // Whether the two pieces have no point in common but z.
    #[tactic(auto, unfolding(rules::specs::Meeting::meet_only_at))]
    pub fn meets_only_at(self, z: Place, other: Piece) -> bool
        ensures { result ≡ meet_only_at z self.from self.to other.from other.to }
    {
        if !self.meets(other) {
            true
        } else if self.is_on_one_line_with(other) {
            other.holds_ends_only(z, self) && self.holds_ends_only(z, other)
        } else {
            self.holds(z) && other.holds(z)
        }
    }
}

// Whether the piece from p to q and the piece from r to s have a point in common.
pub fn meets(p: Place, q: Place, r: Place, s: Place) -> bool
    ensures { result ≡ meet p q r s }
{
    Piece { from: p, to: q }.meets(Piece { from: r, to: s })
}

// Whether the piece from p to q and the piece from r to s have no point in common but z.
pub fn meets_only_at(z: Place, p: Place, q: Place, r: Place, s: Place) -> bool
    ensures { result ≡ meet_only_at z p q r s }
{
    Piece { from: p, to: q }.meets_only_at(z, Piece { from: r, to: s })
}
