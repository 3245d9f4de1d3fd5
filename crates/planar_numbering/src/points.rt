// The numbered points.
ghost use Rattle.std.specs.Prelude.{◌≤◌};

use planar_rules::{ENTRY_ROOM, VERTEX_ROOM};

// vertices[i] is the vertex of point i + 1 and counts[i] the number of its entries; the entries of all, from point 1 on,
// stand in entries from `from` on. Fixed arrays, since the project has no heap; vertices and counts are two and not one of pairs,
// since `vertices` by itself becomes the row that numbers the entries.
#[derive(Drop)]
pub struct Points {
    pub vertices: [u8; VERTEX_ROOM],
    pub counts: [u8; VERTEX_ROOM],
    pub entries: [u8; ENTRY_ROOM],
    pub from: usize,
    pub ghost within: { from ≤ 768 },
}
