// The import's numbers, for all its crates. No running code here: specs/ has wish 4 as definitions, in its order, and its worked cases.
#![tactic(auto)]

// "one byte n from 4 to 255"
pub const FEWEST_VERTICES: u8 = 4;

pub const MOST_VERTICES: usize = 255;

// The longest order file that is imported: 2,544 bytes.
pub const LONGEST_IMPORT: usize = 10 * MOST_VERTICES - 6;

// Room for something of every vertex, for where each list begins and the last ends, for the neighbours in all lists, and for the entries of all points.
pub const VERTEX_ROOM: usize = MOST_VERTICES + 1;

pub const START_ROOM: usize = VERTEX_ROOM + 1;

pub const PLACE_ROOM: usize = 6 * VERTEX_ROOM;

pub const ENTRY_ROOM: usize = 3 * VERTEX_ROOM;
