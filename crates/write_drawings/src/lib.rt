// Writes the drawing file of a finished drawing, and compares a file with it.
// For `write_files`: it asks for a finished drawing and, to write, room in the buffer, which are tested there.
#![tactic(auto)]

ghost use Rattle.std.specs.Prelude.{◌≡◌, ◌+◌, ◌*◌, ◌<◌, ◌≤◌, [], ◌∷◌, length, drop};
ghost use Rattle.rules.specs.Points.{Drawing as Plan};
ghost use Rattle.rules.specs.Refusals.{good, answer};
ghost use Rattle.rules.specs.DrawingFile.{highest, drawing_bytes, compare_bytes};
ghost use Rattle.rules.specs.Output.{filled};
ghost use Rattle.rules.specs.Records.{bytes_of, end_mark};
ghost use Rattle.store_tables.specs.Tables.{arrays_in, ys};
ghost use Rattle.read_comparing.specs.Parts.{part_compared};
ghost use Rattle.write_drawings.specs.Lists.{several, starting, point_bytes, line_bytes, head_bytes};
ghost use Rattle.pages.specs.Pages.{Grown};
ghost use Rattle.write_drawings.specs.Finished.{Finished, Held, Writable, PointsReady, HeadReady, LineReady, LinesReady};

use pages::Page;
use read_comparing::{compare_end, compare_part};
use rules::{
    Answer, DRAWING_SIZE, END_SIZE, LINE_MARK, LINE_SIZE, MOST_POINTS, PLACE_MARK, PLACE_SIZE,
    Style,
};
use store_settling::{View, bend_of};
use store_tables::Point;
use styles::drawing_mark;
use words::last_field;
use write_records::put_end;

// A length or coordinate, as it is written: times s.
fn scaled(s: usize, v: u16) -> u16
    requires { s * v < 65536 }
    ensures { result ≡ s * v }
{
    (s * usize::from(v)) as u16
}

// The largest height of these points.
fn largest(points: &[Point]) -> u16
    ensures { result ≡ highest (ys points.now) }
{
    let mut top = 0;
    for p in points {
        top = top.max(p.y);
    }
    top
}

// Puts the records of the placed points behind what stands in the page.
fn write_points(page: &mut Page<'_>, view: &View)
    requires { let d = view.now.drawing.now in
        PointsReady view.now.x.now (arrays_in d.table).ys d.counts.s d.counts.k page.old.at page.old.bytes.now }
    ensures { let d = view.now.drawing.now in
        Grown page.old (several (point_bytes d.counts.s view.now.x.now (arrays_in d.table).ys) d.counts.k) page.new }
{
    let s = view.drawing.counts.s;
    for i in 0..view.drawing.counts.k {
        let y = view.drawing.table.point(i + 1).y;
        page.words(&[PLACE_MARK, scaled(s, view.x[i]), scaled(s, y)]);
    }
}

// Puts the record of line e there.
#[inline(always)]
fn write_line(page: &mut Page<'_>, view: &View, e: usize)
    requires { let d = view.now.drawing.now in
        LineReady d.counts.style view.now.x.now (arrays_in d.table) d.counts.s e page.old.at page.old.bytes.now }
    ensures { let d = view.now.drawing.now in
        Grown page.old (line_bytes d.counts.style d.counts.s view.now.x.now (arrays_in d.table) e) page.new }
{
    let c = view.drawing.counts;
    let l = view.drawing.table.lines[e];
    let field = last_field(l.kind);
    match c.style {
        Style::OneBend => {
            let bend = bend_of(view, l);
            let bend_x = scaled(c.s, bend.x);
            let bend_y = scaled(c.s, bend.y);
            page.words(&[LINE_MARK, l.later, l.earlier, bend_x, bend_y, field]);
        }
        Style::Straight => page.words(&[LINE_MARK, l.later, l.earlier, field]),
    }
}

// Puts the records of `count` lines there, from line `from` on.
// It and `write_line` are taken into the callers, which have the page: its place is then no word in memory that each number waits for.
#[inline(always)]
fn write_lines(page: &mut Page<'_>, view: &View, from: usize, count: usize)
    requires { let d = view.now.drawing.now in
        LinesReady d.counts.style view.now.x.now (arrays_in d.table) d.counts.s from count page.old.at page.old.bytes.now }
    ensures { let d = view.now.drawing.now in
        Grown page.old (several (starting (line_bytes d.counts.style d.counts.s view.now.x.now (arrays_in d.table)) from) count) page.new }
{
    for i in 0..count {
        write_line(page, view, from + i);
    }
}

// Puts the header and the records of all points there.
fn write_head(page: &mut Page<'_>, view: &View)
    requires { let d = view.now.drawing.now in
        HeadReady view.now.x.now (arrays_in d.table) d.counts page.old.at page.old.bytes.now }
    ensures { let d = view.now.drawing.now in
        Grown page.old (head_bytes view.now.x.now (arrays_in d.table) d.counts) page.new }
{
    let c = view.drawing.counts;
    let width = scaled(c.s, view.x[1]);
    let height = scaled(c.s, largest(&view.drawing.table.points[..c.k]));
    let header = [drawing_mark(c.style), c.n as u16, c.s as u16, width, height];
    page.words(&header);
    write_points(page, view);
}

// The drawing file of a finished drawing: into the start of the buffer.
pub fn write_drawing(out: &mut [u8], view: &View)
    requires { Writable view.now.x.now (arrays_in view.now.drawing.now.table) view.now.drawing.now.counts out.old }
    ensures { (p : Plan) → Finished p view.now.x.now (arrays_in view.now.drawing.now.table) view.now.drawing.now.counts →
        out.new ≡ filled out.old (good (drawing_bytes p)) }
{
    let mut page = Page::new(out);
    write_head(&mut page, view);
    write_lines(&mut page, view, 0, view.drawing.counts.lines);
    put_end(&mut page);
}

// How many bytes the header and 1,024 points have.
const LONGEST_HEAD: usize = DRAWING_SIZE + PLACE_SIZE * MOST_POINTS;

// Compares the start of a file with the header and the records of all points.
fn compare_head(file: &[u8], view: &View) -> Answer<usize>
    requires { Held view.now.x.now (arrays_in view.now.drawing.now.table) view.now.drawing.now.counts }
    ensures { let d = view.now.drawing.now in
        result ≡ part_compared file.now 0 (head_bytes view.now.x.now (arrays_in d.table) d.counts) }
{
    let mut bytes = [0u8; LONGEST_HEAD];
    let mut page = Page::new(&mut bytes);
    write_head(&mut page, view);
    let length = page.at;
    compare_part(file, 0, &bytes[..length])
}

// How many lines are written and compared at once.
const LINES_AT_ONCE: usize = 128;

// Compares the bytes of a file from `at` on with the records of `count` lines, from line `from` on.
fn compare_lines(file: &[u8], at: usize, view: &View, from: usize, count: usize) -> Answer<usize>
    requires held { Held view.now.x.now (arrays_in view.now.drawing.now.table) view.now.drawing.now.counts }
    requires part { (at ≤ length file.now) × (count ≤ 128) × (from + count ≤ view.now.drawing.now.counts.lines) }
    ensures { let d = view.now.drawing.now in
        result ≡ part_compared file.now at (several (starting (line_bytes d.counts.style d.counts.s view.now.x.now (arrays_in d.table)) from) count) }
{
    let mut bytes = [0u8; LINE_SIZE * LINES_AT_ONCE];
    let mut page = Page::new(&mut bytes);
    write_lines(&mut page, view, from, count);
    let length = page.at;
    compare_part(file, at, &bytes[..length])
}

// Compares the bytes of a file from `at` on with the end record, behind which nothing follows.
fn compare_last(file: &[u8], at: usize) -> Answer<()>
    requires { at ≤ length file.now }
    ensures { result ≡ answer (compare_bytes at (drop at file.now) (bytes_of (end_mark ∷ []))) }
{
    let mut bytes = [0u8; END_SIZE];
    put_end(&mut Page::new(&mut bytes));
    let end = compare_part(file, at, &bytes)?;
    compare_end(file, end)
}

// Compares a file with the drawing file of a finished drawing, part by part as that is written, so that no call holds it whole: the project has no heap.
// Each turn goes on by many lines and not by one, so a `for` is no plainer than this `while`.
pub fn compare_drawing(file: &[u8], view: &View) -> Answer<()>
    requires { Held view.now.x.now (arrays_in view.now.drawing.now.table) view.now.drawing.now.counts }
    ensures { (p : Plan) → Finished p view.now.x.now (arrays_in view.now.drawing.now.table) view.now.drawing.now.counts →
        result ≡ answer (compare_bytes 0 file.now (drawing_bytes p)) }
{
    let lines = view.drawing.counts.lines;
    let mut at = compare_head(file, view)?;
    let mut from = 0;
    while from < lines {
        let count = LINES_AT_ONCE.min(lines - from);
        at = compare_lines(file, at, view, from, count)?;
        from += count;
    }
    compare_last(file, at)
}
