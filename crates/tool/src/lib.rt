// The tool's numbers, and a move of the cutter in f32: eighths of a millimetre, exactly.
#![tactic(auto)]

ghost use Rattle.std.specs.Prelude.{◌≡◌, ◌<◌, ◌≤◌};
ghost use Rattle.tool.specs.Checking.{number_in, WholePart, checked_of};
ghost use Rattle.tool.specs.Showing.{over_eight, move_kind, move_numbers};

// The tool as it is handed over: each f32 a whole number of eighths of a millimetre.
#[derive(Clone, Copy, Debug, PartialEq)]
pub struct Tool {
    pub pitch: f32,
    pub depth: f32,
    pub clearance: f32,
}

// The same as whole numbers.
#[derive(Clone, Copy, Debug, PartialEq, Eq)]
pub struct Numbers {
    pub pitch: u32,
    pub depth: u32,
    pub clearance: u32,
}

// A move of the cutter in millimetres: to a place, or to a height.
#[derive(Clone, Copy, Debug, PartialEq)]
pub enum Move {
    Travel(f32, f32),
    Plunge(f32),
    Cut(f32, f32),
    Lift(f32),
}

impl Move {
    // What kind of move it is, as C is told it: 1 travel, 2 plunge, 3 cut, 4 lift.
    pub fn kind(self) -> u8
        ensures { result ≡ move_kind self }
    {
        match self {
            Move::Travel(_, _) => 1,
            Move::Plunge(_) => 2,
            Move::Cut(_, _) => 3,
            Move::Lift(_) => 4,
        }
    }

    // Its two numbers, as C is told them: x and y, or a height and 0.
    pub fn numbers(self) -> [f32; 2]
        ensures { result ≡ move_numbers self }
    {
        match self {
            Move::Travel(x, y) | Move::Cut(x, y) => [x, y],
            Move::Plunge(z) | Move::Lift(z) => [z, 0.0],
        }
    }
}

// x without its fraction; where that is no u64 the nearest one, and 0 for NaN. For `printing_move` too.
pub fn whole_part(x: f32) -> u64
    ensures { WholePart x result }
{
    std::num::saturating_f32_to_u64(x)
}

// The whole number that x is, if it is one from 1 to `most`.
fn whole_number(x: f32, most: u32) -> Option<u32>
    requires { most ≤ 80 }
    ensures { result ≡ number_in most x }
{
    let n = whole_part(x);
    if n >= 1 && n <= u64::from(most) && x == n as f32 {
        return Some(n as u32);
    }
    None
}

// A tool's numbers, if its pitch is from 1 to 80, its depth from 1 to 40 and its clearance from 1 to 80.
#[tactic(auto, using(crate::proofs::Wholes::checked))]
pub fn check_tool(t: Tool) -> Option<Numbers>
    ensures { result ≡ checked_of t }
{
    let pitch = whole_number(t.pitch, 80)?;
    let depth = whole_number(t.depth, 40)?;
    let clearance = whole_number(t.clearance, 80)?;
    Some(Numbers {
        pitch,
        depth,
        clearance,
    })
}

// n eighths of a millimetre, with no error. For `cutter_lines`: it asks that n is an f32.
#[tactic(auto, unfolding(crate::specs::Showing::over_eight))]
pub fn over_eight(n: u32) -> f32
    requires { n < 16777216 }
    ensures { result ≡ over_eight n }
{
    n as f32 / 8.0
}
