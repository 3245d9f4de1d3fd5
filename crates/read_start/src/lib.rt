// The beginning of an order file: the header, the scale, and the records of points 1 to 3.
// For `read_orders`.
#![tactic(auto)]

ghost use Rattle.std.specs.Prelude.{◌≡◌, [], ◌∷◌, map, ◌+◌, ◌*◌, ◌≤◌, length, drop};
ghost use Rattle.rules.specs.Basics.{any_of};
ghost use Rattle.rules.specs.Entries.{read_entry, is_both};
ghost use Rattle.rules.specs.Readings.{entry_of};
ghost use Rattle.rules.specs.Records.{words_in};
ghost use Rattle.store_links.specs.Judging.{point_in};
ghost use Rattle.read_records.specs.Cursors.{cursor};
ghost use Rattle.read_start.specs.Heading.{HeadRead, ScaleRead};
ghost use Rattle.read_start.specs.Starting.{third_from, second_from, points_from, StartRead};

use read_records::{Cursor, lies};
use rules::{Answer, FEWEST_POINTS, MOST_POINTS, NUMBER_SIZE, ORDER_MARK, Refusal, SCALE_MARK};
use words::{entry_of, is_both, word_at};

// Where a scale's record stands, where its mark ends, and where it ends.
const SCALE_AT: usize = NUMBER_SIZE;

const SCALE_MARKED: usize = SCALE_AT + 2;

const SCALE_END: usize = SCALE_AT + NUMBER_SIZE;

// The header and the scale: n, s and the offset behind them.
#[derive(Clone, Copy, Debug, PartialEq, Eq)]
pub struct Head {
    pub n: usize,
    pub s: usize,
    pub at: usize,
}

// The records of points 1 to 3: the entries of lines 1-2, 3-1 and 3-2, and the offset behind them.
#[derive(Clone, Copy, Debug, PartialEq, Eq)]
pub struct Start {
    pub a: u16,
    pub b: u16,
    pub c: u16,
    pub at: usize,
}

// The scale, where there is one, behind the header of a drawing with n points.
fn read_scale(f: &[u8], n: usize) -> Answer<Head>
    requires { 4 ≤ length f.now }
    ensures { ScaleRead f.now n result }
{
    let none = Head {
        n,
        s: 1,
        at: SCALE_AT,
    };
    if f.len() < SCALE_MARKED {
        return Ok(none);
    }
    if word_at(f, SCALE_AT) != SCALE_MARK {
        return Ok(none);
    }
    let record = Cursor {
        file: f,
        at: SCALE_AT,
    };
    let s = record.number(SCALE_MARK)?;
    if !lies(s, 2, 8) {
        return Err(Refusal::OutOfRange.at(SCALE_AT));
    }
    Ok(Head {
        n,
        s: usize::from(s),
        at: SCALE_END,
    })
}

// The header and the scale: n from 3 to 1,024 and s from 2 to 8, else 3.
pub fn read_head(f: &[u8]) -> Answer<Head>
    ensures { HeadRead f.now result }
{
    let record = Cursor { file: f, at: 0 };
    let n = record.number(ORDER_MARK)?;
    if !lies(n, FEWEST_POINTS, MOST_POINTS) {
        return Err(Refusal::OutOfRange.at(0));
    }
    read_scale(f, usize::from(n))
}

// Whether one of the `count` entries at the cursor is marked both guide and feeder.
fn any_both(entries: &Cursor, count: usize) -> bool
    requires { entries.now.at + 2 * count ≤ length entries.now.file.now }
    ensures { result ≡ any_of is_both (map read_entry (words_in count (drop entries.now.at entries.now.file.now))) }
{
    for i in 0..count {
        if is_both(word_at(entries.file, entries.at + 2 * i)) {
            return true;
        }
    }
    false
}

// Point 3's record, with an entry marked both 13, and whose entries are points 1 and 2, else 4; a is the entry of point 2.
fn read_third(here: &Cursor, a: u16) -> Answer<Start>
    requires { point_in a ≡ 1 }
    ensures { StartRead here.now.file.now (third_from (entry_of a ∷ []) (cursor here.now.file.now here.now.at)) result }
{
    let entries = here.entries()?;
    if any_both(&here.moved_to(entries.from), entries.count) {
        return Err(Refusal::BothMarks.at(here.at));
    }
    if entries.count != 2 {
        return Err(Refusal::OtherStart.at(here.at));
    }
    let b = word_at(here.file, entries.from);
    let c = word_at(here.file, entries.from + 2);
    if entry_of(b).point != 1 {
        return Err(Refusal::OtherStart.at(here.at));
    }
    if entry_of(c).point != 2 {
        return Err(Refusal::OtherStart.at(here.at));
    }
    Ok(Start {
        a,
        b,
        c,
        at: entries.next,
    })
}

// Point 2's record, with an entry marked both 13, and whose entry is point 1, else 4; then point 3's.
fn read_second(here: &Cursor) -> Answer<Start>
    ensures { StartRead here.now.file.now (second_from (cursor here.now.file.now here.now.at)) result }
{
    let entries = here.entries()?;
    if any_both(&here.moved_to(entries.from), entries.count) {
        return Err(Refusal::BothMarks.at(here.at));
    }
    if entries.count != 1 {
        return Err(Refusal::OtherStart.at(here.at));
    }
    let a = word_at(here.file, entries.from);
    if entry_of(a).point != 1 {
        return Err(Refusal::OtherStart.at(here.at));
    }
    read_third(&here.moved_to(entries.next), a)
}

// Point 1's record, without an entry, else 4; then those of points 2 and 3.
pub fn read_first(here: &Cursor) -> Answer<Start>
    ensures { StartRead here.now.file.now (points_from (cursor here.now.file.now here.now.at)) result }
{
    let entries = here.entries()?;
    if entries.count != 0 {
        return Err(Refusal::OtherStart.at(here.at));
    }
    read_second(&here.moved_to(entries.next))
}
