// Different vertices in a row, with where each stands.
ghost use Rattle.std.specs.Prelude.{◌≡◌, List, ℕ, ◌≤◌, length, take};
ghost use Rattle.planar_order.specs.Model.{Distinct};
ghost use Rattle.planar_choosing.specs.Rows.{Positions, Apart, found_index, inside?};

use planar_rules::VERTEX_ROOM;
use std::marker::Model;

// Fixed arrays, since the project has no heap. stands[v] is one more than v's index, or 0 for none: with an Option for each, a
// row, which is handed on by value, would be 256 bytes longer, and `index_of` and `is_inside` no shorter.
#[derive(Drop)]
pub struct Row {
    vertices: [u8; VERTEX_ROOM],
    count: usize,
    stands: [u8; VERTEX_ROOM],
}

impl Model for Row {
    ghost Value = { List ℕ };

    ghost view = { λ r. take r.count r.vertices };

    ghost invariant = { λ r. (r.count ≤ 255) × (length r.vertices ≡ 256) × Positions r.vertices r.count r.stands };
}

impl Row {
    // The row of the first `count` of these vertices.
    pub fn new(vertices: [u8; VERTEX_ROOM], count: usize) -> Row
        requires { (count ≤ 255) × Apart vertices count }
        ensures { result ≡ take count vertices }
    {
        let mut stands = [0; VERTEX_ROOM];
        for i in 0..count {
            stands[usize::from(vertices[i])] = (i + 1) as u8;
        }
        Row {
            vertices,
            count,
            stands,
        }
    }

    // How many they are. It also says what holds of every row: they are few, and different.
    pub fn len(&self) -> usize
        ensures count { result ≡ length self.now }
        ensures few { result ≤ 255 }
        ensures distinct { Distinct self.now }
    {
        self.count
    }

    // They themselves, in their order.
    pub fn as_slice(&self) -> &[u8]
        ensures { result.now ≡ self.now }
    {
        &self.vertices[..self.count]
    }

    // Whether v stands between the first and the last.
    pub fn is_inside(&self, v: u8) -> bool
        ensures { result ≡ inside? self.now v }
    {
        let stands = usize::from(self.stands[usize::from(v)]);
        1 < stands && stands < self.count
    }

    // Where v stands.
    pub fn index_of(&self, v: u8) -> Option<usize>
        ensures index { result ≡ found_index self.now v }
        ensures few { length self.now ≤ 255 }
        ensures distinct { Distinct self.now }
    {
        usize::from(self.stands[usize::from(v)]).checked_sub(1)
    }
}
