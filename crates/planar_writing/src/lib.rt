// The import's two outputs: the order file, and the list of vertices by point.
// For `planar`, which has the numbering and has tested the room: the functions ask for both.
#![tactic(auto)]

ghost use Rattle.std.specs.Prelude.{◌≡◌, map, ℕ, suc, ◌+◌, ◌*◌, ◌<◌, ◌≤◌, length, get_or, drop};
ghost use Rattle.rules.specs.Records.{bytes_of};
ghost use Rattle.words.specs.Writing.{Stored};
ghost use Rattle.pages.specs.Pages.{HasRoom, Grown};
ghost use Rattle.planar_rules.specs.PlanarCode.{point_of};
ghost use Rattle.planar_numbering.specs.Points.{Fitting};
ghost use Rattle.planar_writing.specs.Words.{numbers_of, point_words, points_words, order_words, Puttable};

use pages::Page;
use planar_choosing::Row;
use planar_numbering::Points;
use rules::{ENTRIES_MARK, ORDER_MARK};

// The point number of a vertex, where `by_point` has the vertices by point; one past the last for a vertex that isn't among them.
fn number_of(by_point: &Row, v: u8) -> u16
    ensures { result ≡ point_of by_point.now v }
{
    by_point.index_of(v).unwrap_or(by_point.len()) as u16 + 1
}

// Puts the numbers of these vertices behind what stands in the page.
fn put_entries(page: &mut Page<'_>, entries: &[u8], by_point: &Row)
    requires { HasRoom page.old (2 * length entries.now) }
    ensures { Grown page.old (bytes_of (numbers_of by_point.now entries.now)) page.new }
{
    for &v in entries {
        page.word(number_of(by_point, v));
    }
}

// Puts the record of a point with these entries there.
fn put_point(page: &mut Page<'_>, entries: &[u8], by_point: &Row)
    requires { (length entries.now < 65536) × HasRoom page.old (4 + 2 * length entries.now) }
    ensures { Grown page.old (bytes_of (point_words by_point.now entries.now)) page.new }
{
    write_records::put_two(page, ENTRIES_MARK, entries.len());
    put_entries(page, entries, by_point);
}

// Puts the records of all points there.
fn put_points(page: &mut Page<'_>, points: &Points, by_point: &Row)
    requires entries { Fitting points.now.counts 0 (length by_point.now) (drop points.now.from points.now.entries) }
    requires room { HasRoom page.old (2 * length (points_words by_point.now points.now.counts 0 (length by_point.now) (drop points.now.from points.now.entries))) }
    ensures { Grown page.old (bytes_of (points_words by_point.now points.now.counts 0 (length by_point.now) (drop points.now.from points.now.entries))) page.new }
{
    let mut from = points.from;
    for &count in &points.counts[..by_point.len()] {
        let end = from + usize::from(count);
        put_point(page, &points.entries[from..end], by_point);
        from = end;
    }
}

// Writes the order file.
fn put_order(out: &mut [u8], points: &Points, by_point: &Row)
    requires entries { Fitting points.now.counts 0 (length by_point.now) (drop points.now.from points.now.entries) }
    requires room { 2 * length (order_words by_point.now points.now.counts (drop points.now.from points.now.entries)) ≤ length out.old }
    ensures { Stored out.old 0 (bytes_of (order_words by_point.now points.now.counts (drop points.now.from points.now.entries))) out.new }
{
    let mut page = Page::new(out);
    write_records::put_two(&mut page, ORDER_MARK, by_point.len());
    put_points(&mut page, points, by_point);
    write_records::put_end(&mut page);
}

// Writes these vertices; the file counts them from 1.
fn put_list(out: &mut [u8], vertices: &[u8])
    requires { (length vertices.now ≤ length out.old) × ((i : ℕ) → i < length vertices.now → get_or vertices.now i 0 < 255) }
    ensures { Stored out.old 0 (map suc vertices.now) out.new }
{
    for i in 0..vertices.len() {
        out[i] = vertices[i] + 1;
    }
}

// Writes both outputs.
pub fn put_both(order: &mut [u8], list: &mut [u8], points: &Points, by_point: &Row)
    requires { Puttable order.old list.old by_point.now points.now.counts points.now.entries points.now.from }
    ensures { Stored order.old 0 (bytes_of (order_words by_point.now points.now.counts (drop points.now.from points.now.entries))) order.new ×
        Stored list.old 0 (map suc by_point.now) list.new }
{
    put_order(order, points, by_point);
    put_list(list, by_point.as_slice());
}
