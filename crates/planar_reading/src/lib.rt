// A file in planar_code: whether it is well formed, and its net in arrays.
// `Net::read` takes any bytes; the functions that make its arrays ask for lists that are well formed, with no more
// neighbours than an array has room for.
#![tactic(auto)]

mod net;

ghost use Rattle.std.specs.Prelude.{◌≡◌, true, ◌∷◌, ◌<◌, ◌≤◌, ◌-◌, ◌+◌, length, get_or, take, drop, IfOk, IfErr};
ghost use Rattle.planar_rules.specs.PlanarCode.{lists?, formed?, neighbours, owners, ends, after, imported};
ghost use Rattle.rules.specs.Refusals.{refused};
ghost use Rattle.planar_reading.specs.Laws.{Holds};
ghost use Rattle.planar_reading.specs.Reads.{net_in, Holding, list_in, found_place};

pub use net::Net;
use planar_rules::{FEWEST_VERTICES, PLACE_ROOM, START_ROOM};
use rules::{Answer, Refusal};

// Where n stands, behind the opening characters, and where the lists begin.
const AT_N: usize = 15;

const AT_LISTS: usize = 16;

// Whether n lists, and nothing else, stand there, and no neighbour is above n.
fn well_listed(n: u8, lists: &[u8]) -> bool
    ensures { result ≡ lists? n n lists.now }
{
    let mut left = n;
    for &c in lists {
        if left == 0 {
            return false;
        }
        if n < c {
            return false;
        }
        if c == 0 {
            left -= 1;
        }
    }
    left == 0
}

// Whether the file is well formed: what 14 asks.
fn formed(file: &[u8]) -> bool
    ensures { result ≡ formed? file.now }
{
    if file.len() < AT_LISTS {
        return false;
    }
    if !file.starts_with(b">>planar_code<<") {
        return false;
    }
    let n = file[AT_N];
    if n < FEWEST_VERTICES {
        return false;
    }
    well_listed(n, &file[AT_LISTS..])
}

// How many neighbours all lists have together: the places.
fn count_places(lists: &[u8]) -> usize
    ensures { result ≡ length (neighbours lists.now) }
{
    let mut places = 0;
    for &c in lists {
        if c != 0 {
            places += 1;
        }
    }
    places
}

// Which vertex each place names. What this and the next two functions ask of the lists stands in each: a struct of n and the
// lists would be made once, to be taken apart three times.
fn neighbours_of(lists: &[u8]) -> [u8; PLACE_ROOM]
    requires { length (neighbours lists.now) ≤ 1536 }
    ensures { Holds (neighbours lists.now) result }
{
    let mut neighbours = [0; PLACE_ROOM];
    let mut d = 0;
    for &c in lists {
        if c != 0 {
            neighbours[d] = c - 1;
            d += 1;
        }
    }
    neighbours
}

// In whose list each place stands.
fn owners_of(n: u8, lists: &[u8]) -> [u8; PLACE_ROOM]
    requires { (lists? n n lists.now ≡ true) × (length (neighbours lists.now) ≤ 1536) }
    ensures { Holds (owners 0 lists.now) result }
{
    let mut owners = [0; PLACE_ROOM];
    let mut v = 0;
    let mut d = 0;
    for &c in lists {
        if c == 0 {
            v += 1;
        } else {
            owners[d] = v;
            d += 1;
        }
    }
    owners
}

// Where each list begins, and where the last ends.
fn starts_of(n: u8, lists: &[u8]) -> [u16; START_ROOM]
    requires { (lists? n n lists.now ≡ true) × (length (neighbours lists.now) ≤ 1536) }
    ensures { Holds (0 ∷ ends 0 lists.now) result }
{
    let mut starts = [0; START_ROOM];
    let mut v = 1;
    let mut d = 0;
    for &c in lists {
        if c == 0 {
            starts[v] = d;
            v += 1;
        } else {
            d += 1;
        }
    }
    starts
}

// Vertices and places come as plain numbers, and each method asks that they are in range: a type for each would be no plainer, since it would be made of a number at every call.
impl Net {
    // The net of a file: 14 where it is not well formed, and 15 where it has more places than a net of 255 vertices.
    pub fn read(file: &[u8]) -> Answer<Net>
        ensures net { IfOk result (Holding file.now) }
        ensures refusal { IfErr result (λ e. imported file.now ≡ refused e.refusal e.place) }
    {
        if !formed(file) {
            return Err(Refusal::BadCode.at(0));
        }
        let n = file[AT_N];
        let lists = &file[AT_LISTS..];
        let places = count_places(lists);
        if PLACE_ROOM < places {
            return Err(Refusal::NoNet.at(0));
        }
        Ok(Net {
            n,
            places,
            starts: starts_of(n, lists),
            owners: owners_of(n, lists),
            neighbours: neighbours_of(lists),
        })
    }

    // How many vertices it has.
    pub fn n(&self) -> u8
        ensures { result ≡ (net_in self.now).n }
    {
        self.n
    }

    // How many places: each line has two.
    pub fn places(&self) -> usize
        ensures { result ≡ (net_in self.now).D }
    {
        self.places
    }

    // In whose list place d stands.
    pub fn owner(&self, d: usize) -> u8
        requires { d < 1536 }
        ensures { result ≡ (net_in self.now).own d }
    {
        self.owners[d]
    }

    // Which vertex it names.
    pub fn neighbour(&self, d: usize) -> u8
        requires { d < 1536 }
        ensures { result ≡ (net_in self.now).nbr d }
    {
        self.neighbours[d]
    }

    // Where v's list begins.
    fn start(&self, v: u8) -> usize
        ensures { result ≡ get_or self.now.starts v 0 }
    {
        usize::from(self.starts[usize::from(v)])
    }

    // The place behind its last.
    fn end(&self, v: u8) -> usize
        ensures { result ≡ get_or self.now.starts (v + 1) 0 }
    {
        usize::from(self.starts[usize::from(v) + 1])
    }

    // Whom v's list names.
    pub fn list(&self, v: u8) -> &[u8]
        requires { v < (net_in self.now).n }
        ensures list { result.now ≡ list_in self.now v }
        ensures size { let f = net_in self.now in length result.now ≡ f.off (v + 1) - f.off v }
    {
        &self.neighbours[self.start(v)..self.end(v)]
    }

    // The place of u in v's list.
    pub fn place_of(&self, v: u8, u: u8) -> Option<usize>
        requires { v < (net_in self.now).n }
        ensures { result ≡ found_place (net_in self.now) v u }
    {
        for d in (self.start(v)..self.end(v)).rev() {
            if self.neighbours[d] == u {
                return Some(d);
            }
        }
        None
    }

    // The next place clockwise: a list is read cyclically.
    pub fn after(&self, d: usize) -> usize
        requires { d < 1536 }
        ensures { result ≡ after (net_in self.now) d }
    {
        let v = self.owners[d];
        if d + 1 == self.end(v) {
            self.start(v)
        } else {
            d + 1
        }
    }
}
