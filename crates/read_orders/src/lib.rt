// Reads an order file into the lent drawing, record by record; the first refusal is the answer.
// For `panel`: it asks for a drawing whose table is empty, which is lent, so that no call through C has two on its stack (fixed memory).
#![tactic(auto)]

ghost use Rattle.std.specs.Prelude.{◌≡◌};
ghost use Rattle.rules.specs.OrderFile.{read_points, read_order};
ghost use Rattle.store_tables.specs.Tables.{zeros};
ghost use Rattle.store_laws.specs.Stored.{Stored};
ghost use Rattle.read_records.specs.Cursors.{cursor};
ghost use Rattle.read_orders.specs.Points.{PointRead, RestRead, Headed, Gave};

use read_records::Cursor;
use read_start::{read_first, read_head};
use rules::{Answer, Style};
use store_tables::{Drawing, POINTS};

// One point more: its record, tested and added as a call adds; its refusals stand at its mark. Gives the offset behind the record.
// A match and not map_err, which would be no plainer: both cases are told apart in the proof all the same.
fn read_point(here: &Cursor, d: &mut Drawing, e: &mut [u16; POINTS]) -> Answer<usize>
    requires { Stored d.old }
    ensures { PointRead here.now.file.now here.now.at d.old d.new result }
{
    let record = here.entries()?;
    let entries = here.moved_to(record.from);
    if POINTS < record.count {
        return Err(read_long::judge_long(&entries, record.count, d).at(here.at));
    }
    entries.copy_numbers(record.count, e);
    match store_adding::add(d, &e[..record.count]) {
        Ok(()) => Ok(record.next),
        Err(refused) => Err(refused.refusal.at(here.at)),
    }
}

// The records of so many points more, then the end. Their entries lie in a fixed array, since the project has no heap.
fn read_rest(start: &Cursor, points: usize, d: &mut Drawing) -> Answer<()>
    requires { Stored d.old }
    ensures { RestRead start.now.file.now start.now.at points d.old d.new result }
{
    let mut at = start.at;
    let mut e = [0u16; POINTS];
    for _ in 0..points {
        at = read_point(&start.moved_to(at), d, &mut e)?;
    }
    start.moved_to(at).end()
}

// Points 1 to n, behind the header of a file with n points and the scale s.
fn read_points(here: &Cursor, style: Style, n: usize, s: usize, d: &mut Drawing) -> Answer<()>
    requires { Headed n d.old }
    ensures { Gave (read_points style n s (cursor here.now.file.now here.now.at)) d.new result }
{
    let start = read_first(here)?;
    store_points::open_in(d, style, n, s, start.a, start.b, start.c);
    read_rest(&here.moved_to(start.at), n - 3, d)
}

// Reads an order file into a drawing whose table is empty, as a drawing of this style. After a refusal it is anything: throw it away.
pub fn read_order(f: &[u8], style: Style, d: &mut Drawing) -> Answer<()>
    requires { d.old.table ≡ zeros }
    ensures { Gave (read_order style f.now) d.new result }
{
    let head = read_head(f)?;
    let points = Cursor {
        file: f,
        at: head.at,
    };
    read_points(&points, style, head.n, head.s, d)
}
