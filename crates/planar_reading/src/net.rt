// A net in arrays.
ghost use Rattle.planar_reading.specs.Arrays.{flat_of, Kept};

use planar_rules::{PLACE_ROOM, START_ROOM};

// A net with n vertices. Its lists stand one behind another: that of v from place starts[v] up to place starts[v + 1].
// owners[d] is in whose list place d stands, and neighbours[d] which vertex it names. Only `Net::read` makes one.
// Fixed arrays, since the project has no heap; owners and neighbours are two and not one of pairs, since a list is lent as a
// slice of `neighbours`.
#[derive(Drop)]
pub struct Net {
    pub(crate) n: u8,
    pub(crate) places: usize,
    pub(crate) starts: [u16; START_ROOM],
    pub(crate) owners: [u8; PLACE_ROOM],
    pub(crate) neighbours: [u8; PLACE_ROOM],
    pub ghost kept: { Kept (flat_of n places starts owners neighbours) },
}
