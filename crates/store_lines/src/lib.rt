// The ports of a point, at which lines bend.
// For the crates above: it asks for ports that lie within 16 bits.
#![tactic(auto)]

ghost use Rattle.std.specs.Prelude.{◌≡◌, ◌+◌, ◌-◌, ◌<◌, ◌≤◌};
ghost use Rattle.rules.specs.Points.{at};

use rules::Place;

// Left port j of a point at (x, y) with dl left ports.
pub fn left_port(x: u16, y: u16, dl: u16, j: u16) -> Place
    requires { (j ≤ dl) × (dl + 1 ≤ x) × (y + j < 65536) }
    ensures { result ≡ at (x - (dl + 1)) (y + j) }
{
    Place {
        x: x - (dl + 1),
        y: y + j,
    }
}

// Right port j of a point at (x, y) with dr right ports.
pub fn right_port(x: u16, y: u16, dr: u16, j: u16) -> Place
    requires { (j ≤ dr) × (x + dr + 1 < 65536) × (y + j < 65536) }
    ensures { result ≡ at (x + dr + 1) (y + j) }
{
    Place {
        x: x + dr + 1,
        y: y + j,
    }
}

// Middle port i of a point at (x, y) whose middle row lies h below it.
pub fn middle_port(x: u16, y: u16, h: u16, i: u16) -> Place
    requires { (x + i < 65536) × (h ≤ x + i) × (h ≤ y) }
    ensures { result ≡ at (x + i - h) (y - h) }
{
    Place {
        x: x + i - h,
        y: y - h,
    }
}
