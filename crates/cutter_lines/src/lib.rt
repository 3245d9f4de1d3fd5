// The moves of one line in f32, exactly: document 01's five each time that it is cut, less a cut to where the cutter is.
// For the crates above: it asks for places on the grid and numbers in range, which are tested or proved there.
#![tactic(auto)]

ghost use Rattle.std.specs.Prelude.{◌≡◌, ◌+◌, ◌*◌, ◌≤◌, ◌<◌, if◌then◌else◌};
ghost use Rattle.rules.specs.Meeting.{same_place};
ghost use Rattle.rules.specs.Moves.{cut};
ghost use Rattle.tool.specs.Checking.{InRange};
ghost use Rattle.tool.specs.Showing.{over_eight, in_floats, IsMove};
ghost use Rattle.cutter_lines.specs.Grooves.{cuts, each, total, step_of, five_move, groove_move, OnGrid, GrooveOnGrid};
ghost use Rattle.cutter_lines.specs.Steps.{step_number};

use rules::{Kind, Place};
use tool::{Move, Numbers};

// How the grid becomes millimetres: the drawing's scale, and the tool's numbers.
#[derive(Clone, Copy, Debug, PartialEq, Eq)]
pub struct Setting {
    pub scale: usize,
    pub tool: Numbers,
    ghost scaled: { (1 ≤ scale) × (scale ≤ 8) },
    ghost in_range: { InRange tool },
}

impl Setting {
    // A grid coordinate in millimetres: the whole product, over 8.
    fn coordinate(self, c: u16) -> f32
        requires { c ≤ 5111 }
        ensures { result ≡ over_eight (self.scale * c * self.tool.pitch) }
    {
        tool::over_eight(self.scale as u32 * u32::from(c) * self.tool.pitch)
    }

    // The cut to a place on the grid.
    fn cut_to(self, p: Place) -> Move
        requires { OnGrid p }
        ensures { result ≡ in_floats (cut (self.scale * p.x * self.tool.pitch) (self.scale * p.y * self.tool.pitch)) }
    {
        Move::Cut(self.coordinate(p.x), self.coordinate(p.y))
    }
}

// One of document 01's five moves of a line.
#[derive(Clone, Copy, Debug, PartialEq, Eq)]
enum Step {
    Travel,
    Plunge,
    CutToBend,
    CutToEarlier,
    Lift,
}

// Which of the five is move `which`, where the cut to the bend is left out, or the cut to the earlier point.
fn step_at(which: usize, bend_out: bool, end_out: bool) -> Step
    requires { which < 3 + (if bend_out then 0 else 1) + (if end_out then 0 else 1) }
    ensures { step_number result ≡ step_of bend_out end_out which }
{
    match (which, bend_out, end_out) {
        (0, _, _) => Step::Travel,
        (1, _, _) => Step::Plunge,
        (2, false, _) => Step::CutToBend,
        (2, true, false) | (3, false, false) => Step::CutToEarlier,
        _ => Step::Lift,
    }
}

// A line as it is cut: its kind, and where its later point, its bend and its earlier point lie. A straight line is one whose bend lies at its earlier point.
// That its places lie on the grid stands in the contracts, and not here: the definitions speak of the grooves of any drawing.
#[derive(Clone, Copy, Debug, PartialEq, Eq)]
pub struct Groove {
    pub kind: Kind,
    pub later: Place,
    pub bend: Place,
    pub earlier: Place,
}

impl Groove {
    // The move of a step: from the later point over the bend to the earlier point.
    fn step_move(self, step: Step, by: Setting) -> Move
        requires { GrooveOnGrid self }
        ensures { result ≡ in_floats (five_move (step_number step) by.scale by.tool self) }
    {
        let later = self.later;
        match step {
            Step::Travel => Move::Travel(by.coordinate(later.x), by.coordinate(later.y)),
            Step::Plunge => Move::Plunge(-tool::over_eight(by.tool.depth)),
            Step::CutToBend => by.cut_to(self.bend),
            Step::CutToEarlier => by.cut_to(self.earlier),
            Step::Lift => Move::Lift(tool::over_eight(by.tool.clearance)),
        }
    }

    // How many moves it gives each time: travel, plunge, the cuts to the bend and to the earlier point, lift. No cut leads to where the cutter is.
    #[tactic(auto, using(crate::proofs::Made::one_cut), unfolding(rules::specs::Meeting::same_place))]
    fn moves_each(self) -> usize
        ensures value { result ≡ each self }
        ensures some { (3 ≤ result) × (result ≤ 5) }
    {
        3 + (self.bend != self.later) as usize + (self.earlier != self.bend) as usize
    }

    // Which of the five is move `which` of those.
    #[tactic(auto, unfolding(rules::specs::Meeting::same_place))]
    fn step(self, which: usize) -> Step
        requires { which < each self }
        ensures { step_number result ≡ step_of (same_place self.bend self.later) (same_place self.earlier self.bend) which }
    {
        step_at(which, self.bend == self.later, self.earlier == self.bend)
    }

    // How many moves it gives in all.
    pub fn move_total(self) -> usize
        ensures value { result ≡ total self }
        ensures some { result ≤ 10 }
    {
        cuts_of(self.kind) * self.moves_each()
    }

    // Move `number`, from 0, of all that it gives.
    pub fn move_at(self, number: usize, by: Setting) -> Move
        requires there { number < total self }
        requires on_grid { GrooveOnGrid self }
        ensures { IsMove result (groove_move number by.scale by.tool self) }
    {
        let which = number % self.moves_each();
        self.step_move(self.step(which), by)
    }
}

// How often a line is cut: a guide never, a plain line once, a feeder twice. One function with `last_field` and `top_bits` of `words` would be no plainer: the three numbers are others.
fn cuts_of(kind: Kind) -> usize
    ensures value { result ≡ cuts kind }
    ensures some { result ≤ 2 }
{
    match kind {
        Kind::Guide => 0,
        Kind::Plain => 1,
        Kind::Feeder => 2,
    }
}
