// The order writer: the order file of a finished drawing, in one pass over its stored lines.
// For `write_files`: it asks for a finished drawing and room in the buffer, which are tested there.
#![tactic(auto)]

ghost use Rattle.std.specs.Prelude.{◌≡◌, ◌∷◌, map, eqb, ◌+◌, ◌*◌, ◌<◌, ◌≤◌, length};
ghost use Rattle.std.specs.List.{prefix_len};
ghost use Rattle.rules.specs.Points.{Drawing as Plan};
ghost use Rattle.rules.specs.Entries.{point_limit};
ghost use Rattle.rules.specs.OrderFile.{write_order, longest_order};
ghost use Rattle.rules.specs.Records.{bytes_of, entries_mark};
ghost use Rattle.store_links.specs.Arrays.{Stores};
ghost use Rattle.store_tables.specs.Tables.{arrays_in};
ghost use Rattle.exchange.specs.Built.{Whole};
ghost use Rattle.pages.specs.Pages.{HasRoom, Grown};
ghost use Rattle.write_orders.specs.Writing.{word_for, Joinable, points_words, head_words, OrderWritable, OrderWritten};

use pages::Page;
use rules::{ENTRIES_MARK, Entry, Line, NUMBER_SIZE, ORDER_MARK, SCALE_MARK};
use store_links::Counts;
use store_tables::{Drawing, LINES};
use write_records::{put_end, put_two};

// The number of a line's entry.
fn joined(l: Line) -> u16
    requires { l.earlier < point_limit }
    ensures { result ≡ word_for l }
{
    words::join(Entry {
        point: l.earlier,
        kind: l.kind,
    })
}

// How many of these lines in succession have p as their later point.
fn count_lines(lines: &[Line], p: usize) -> usize
    ensures { result ≡ prefix_len (λ l. eqb l.later p) lines.now }
{
    lines
        .iter()
        .take_while(|l| usize::from(l.later) == p)
        .count()
}

// Puts the record of a point that has these lines behind what stands in the page.
fn put_point(page: &mut Page<'_>, lines: &[Line])
    requires { (length lines.now < 65536) × HasRoom page.old (4 + 2 * length lines.now) × Joinable lines.now (length lines.now) }
    ensures { Grown page.old (bytes_of (entries_mark ∷ length lines.now ∷ map word_for lines.now)) page.new }
{
    put_two(page, ENTRIES_MARK, lines.len());
    for &l in lines {
        page.word(joined(l));
    }
}

// Puts the records of points 1 to n there in turn, each with those of the first `all` lines that are its own.
fn put_points(page: &mut Page<'_>, lines: &[Line; LINES], n: usize, all: usize)
    requires { (n ≤ 1024) × (all ≤ 3072) × Joinable lines.now all × HasRoom page.old (2 * length (points_words lines.now all n 1 0)) }
    ensures { Grown page.old (bytes_of (points_words lines.now all n 1 0)) page.new }
{
    let mut from = 0;
    for p in 1..=n {
        let count = count_lines(&lines[from..all], p);
        put_point(page, &lines[from..from + count]);
        from += count;
    }
}

// Puts the header there, and the scale where it isn't 1.
fn put_head(page: &mut Page<'_>, n: usize, s: usize)
    requires { (n ≤ 1024) × (s ≤ 8) × HasRoom page.old (2 * length (head_words n s)) }
    ensures { Grown page.old (bytes_of (head_words n s)) page.new }
{
    put_two(page, ORDER_MARK, n);
    if s != 1 {
        put_two(page, SCALE_MARK, s);
    }
}

// Writes the order file of a finished drawing. Returns the number of bytes.
pub fn write_order(out: &mut [u8], d: &Drawing) -> usize
    requires { OrderWritable out.old (arrays_in d.now.table) d.now.counts }
    ensures { (p : Plan) → Whole p → Stores p (arrays_in d.now.table) d.now.counts → OrderWritten p out.old out.new result }
{
    let c = d.counts;
    let mut page = Page::new(out);
    put_head(&mut page, c.n, c.s);
    put_points(&mut page, &d.table.lines, c.n, c.lines);
    put_end(&mut page);
    page.at
}

// How many bytes the order file of a finished drawing with these numbers has.
pub fn order_length(c: Counts) -> usize
    requires { (3 ≤ c.n) × (c.n ≤ 1024) }
    ensures exact { (p : Plan) → Whole p → c.n ≡ p.n → c.s ≡ p.s → result ≡ length (write_order p) }
    ensures within { result ≤ longest_order }
{
    let plain = 10 * c.n - 6;
    if c.s == 1 { plain } else { plain + NUMBER_SIZE }
}
