// A drawing file's records, read into the lent drawing. Comparing its bytes with the drawing's, 11, is left to the caller.
// For `panel`: it asks for a drawing whose table is empty, which is lent, so that no call through C has two on its stack (fixed memory).
#![tactic(auto)]

ghost use Rattle.std.specs.Prelude.{◌≡◌};
ghost use Rattle.store_tables.specs.Tables.{zeros};
ghost use Rattle.read_drawings.specs.Whole.{Passes};
ghost use Rattle.read_drawings.specs.Contracted.{Groups, Grouped, AllGrouped, LinesRead};

use read_groups::{entry_at, take_group};
use read_judging::{N_AT, S_AT, judge_file};
use read_records::Cursor;
use rules::{Answer, DRAWING_SIZE, PLACE_SIZE, Style};
use store_tables::{Drawing, LINES};
use styles::line_size;
use words::word_at;

// Adds the next point with its group, where `total` lines start at the cursor and the drawing has so many of them. A refusal is at the group's place.
// A match and not map_err, which would be no plainer: both cases are told apart in the proof all the same.
fn add_group(
    lines: &Cursor,
    style: Style,
    total: usize,
    d: &mut Drawing,
    e: &mut [u16; LINES],
) -> Answer<()>
    requires { Groups style lines.now.file.now lines.now.at total d.old }
    ensures { Grouped style lines.now.file.now lines.now.at total d.old d.new result }
{
    let had = d.counts.lines;
    let group = lines.moved_to(lines.at + line_size(style) * had);
    let count = take_group(&group, style, total - had, (d.counts.k + 1) as u16, e);
    match store_adding::add(d, &e[..count]) {
        Ok(()) => Ok(()),
        Err(refused) => Err(refused.refusal.at(group.at)),
    }
}

// Adds the groups of all points that are left, one after another. Their entries lie in a fixed array, since the project has no heap.
fn add_groups(lines: &Cursor, style: Style, total: usize, d: &mut Drawing) -> Answer<()>
    requires { Groups style lines.now.file.now lines.now.at total d.old }
    ensures { AllGrouped style lines.now.file.now lines.now.at total d.old d.new result }
{
    let mut e = [0u16; LINES];
    for _point in d.counts.k..d.counts.n {
        add_group(lines, style, total, d, &mut e)?;
    }
    Ok(())
}

// The drawing of a file whose tests before the groups of points 4 to n have passed.
fn read_passed(f: &[u8], style: Style, d: &mut Drawing) -> Answer<()>
    requires { Passes style f.now × (d.old.table ≡ zeros) }
    ensures { LinesRead style f.now d.new result }
{
    let n = usize::from(word_at(f, N_AT));
    let s = usize::from(word_at(f, S_AT));
    let size = line_size(style);
    let lines = Cursor {
        file: f,
        at: DRAWING_SIZE + PLACE_SIZE * n,
    };
    let second = lines.moved_to(lines.at + size);
    let third = lines.moved_to(second.at + size);
    let a = entry_at(&lines, style);
    let b = entry_at(&second, style);
    let c = entry_at(&third, style);
    store_points::open_in(d, style, n, s, a, b, c);
    add_groups(&lines, style, 3 * n - 6, d)
}

// Reads a drawing file of this style into a drawing whose table is empty, up to the comparison of its bytes with the drawing's, 11.
// What the drawing is after a refusal is left open.
pub fn read_lines(f: &[u8], style: Style, d: &mut Drawing) -> Answer<()>
    requires { d.old.table ≡ zeros }
    ensures { LinesRead style f.now d.new result }
{
    judge_file(f, style)?;
    read_passed(f, style, d)
}
