// 16-bit numbers in byte slices, high byte first, and as entries, split by mask and shift and put together by shift and or.
// The one place that looks at an entry's bits, and at a line's last field in a drawing file.
// The functions ask that a number fits and that an offset lies in the slice; the crates above have tested it.
#![tactic(auto)]

ghost use Rattle.std.specs.Prelude.{◌≡◌, ◌+◌, ◌<◌, length};
ghost use Rattle.words.specs.Bytes.{word_at, with_word};
ghost use Rattle.rules.specs.Entries.{point_limit, read_entry, top_bits, word_of, is_cut, is_both};
ghost use Rattle.rules.specs.Readings.{entry_of};
ghost use Rattle.rules.specs.DrawingFile.{last_field, kind_from};

use rules::{Entry, Kind, Reading};

// The number whose bytes stand at `at`.
pub fn word_at(s: &[u8], at: usize) -> u16
    requires { at + 1 < length s.now }
    ensures { result ≡ word_at s.now at }
{
    u16::from_be_bytes([s[at], s[at + 1]])
}

// Writes a number's two bytes at `at`: one store, as `word_at` is one read. A place that moves on from number to number is that of a page, in crate `pages`.
pub fn put_word(out: &mut [u8], at: usize, v: u16)
    requires { at + 1 < length out.old }
    ensures { out.new ≡ with_word out.old at v }
{
    out[at..at + 2].copy_from_slice(&v.to_be_bytes());
}

// How many low bits are a point's number.
const POINT_BITS: u16 = 14;

pub const POINT_LIMIT: u16 = 16384;

const POINT_MASK: u16 = POINT_LIMIT - 1;

// What the two bits above them say; 3 is both guide and feeder.
// They are numbers of the file format, as a line's last field is; and the functions on Entry and Kind are no impl of From, which Rust allows only in rules, where the types are.
const PLAIN: u16 = 0;

const FEEDER: u16 = 1;

const GUIDE: u16 = 2;

// The earlier point of an entry: its low 14 bits.
fn low_bits(e: u16) -> u16
    ensures { result ≡ (entry_of e).point }
{
    e & POINT_MASK
}

// The same, to compute with: `usize::from(entry_of(e).point)` is no plainer at each place, and would look at the kind too.
pub fn point_of(e: u16) -> usize
    ensures { result ≡ (entry_of e).point }
{
    usize::from(low_bits(e))
}

// An entry, read from its 16-bit number.
pub fn split(e: u16) -> Reading
    ensures { result ≡ read_entry e }
{
    let point = low_bits(e);
    let kind = match e >> POINT_BITS {
        PLAIN => Kind::Plain,
        FEEDER => Kind::Feeder,
        GUIDE => Kind::Guide,
        _ => return Reading::Both(point),
    };
    Reading::Given(Entry { point, kind })
}

// Whether an entry is marked both guide and feeder.
pub fn is_both(e: u16) -> bool
    ensures { result ≡ is_both (read_entry e) }
{
    matches!(split(e), Reading::Both(_))
}

// The entry of a line that is stored. None is marked both; what is read then doesn't matter.
pub fn entry_of(e: u16) -> Entry
    ensures { result ≡ entry_of e }
{
    match split(e) {
        Reading::Given(x) => x,
        Reading::Both(point) => Entry {
            point,
            kind: Kind::Guide,
        },
    }
}

// The two top bits of an entry of this kind.
fn top_bits(k: Kind) -> u16
    ensures { result ≡ top_bits k }
{
    match k {
        Kind::Plain => PLAIN,
        Kind::Feeder => FEEDER,
        Kind::Guide => GUIDE,
    }
}

// An entry, written as its 16-bit number.
pub fn join(x: Entry) -> u16
    requires { x.point < point_limit }
    ensures { result ≡ word_of x }
{
    let top = top_bits(x.kind);
    (top << POINT_BITS) | x.point
}

// Whether a line of this kind is cut.
pub fn is_cut(k: Kind) -> bool
    ensures { result ≡ is_cut k }
{
    k != Kind::Guide
}

// A line's last field in a drawing file.
const GUIDE_FIELD: u16 = 0;

const PLAIN_FIELD: u16 = 1;

const FEEDER_FIELD: u16 = 2;

// The field of a line of this kind. One function with `top_bits` would be no plainer: it would be handed the three numbers, and each has its own definition.
pub fn last_field(k: Kind) -> u16
    ensures { result ≡ last_field k }
{
    match k {
        Kind::Guide => GUIDE_FIELD,
        Kind::Plain => PLAIN_FIELD,
        Kind::Feeder => FEEDER_FIELD,
    }
}

// The kind that such a field means; above a feeder's it means plain.
pub fn kind_from(field: u16) -> Kind
    ensures { result ≡ kind_from field }
{
    match field {
        GUIDE_FIELD => Kind::Guide,
        FEEDER_FIELD => Kind::Feeder,
        _ => Kind::Plain,
    }
}
