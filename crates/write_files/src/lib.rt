// Both files of a drawing, written into a buffer that the caller lends: 24 where it is short. And a file compared with the drawing file: 11 where it is another.
// For `panel` and `panel_asked`: it asks for a stored drawing, a finished one where it does not test that.
#![tactic(auto)]

ghost use Rattle.std.specs.Prelude.{◌≡◌, ◌≤◌, length, ltb};
ghost use Rattle.rules.specs.declared.Refusal.TheVariants.{OutputShort};
ghost use Rattle.rules.specs.Refusals.{good, answer, refuse_if};
ghost use Rattle.rules.specs.Styles.{drawing_length};
ghost use Rattle.rules.specs.Points.{Drawing as Plan, fewest_points, most_points};
ghost use Rattle.rules.specs.OrderFile.{write_order};
ghost use Rattle.rules.specs.DrawingFile.{drawing_bytes, write_drawing, compare_bytes};
ghost use Rattle.store_laws.specs.Stored.{Is};
ghost use Rattle.exchange.specs.Built.{Reached, Whole};
ghost use Rattle.write_files.specs.Outputs.{Wrote, Ended};
ghost use Rattle.write_files.specs.Finishing.{whole_order, IsReached};

use rules::{Answer, Refusal, Style};
use store_settling::View;
use store_tables::Drawing;

// How many bytes the drawing file of n points has: "42n - 60", or 4 less for each line.
pub fn drawing_length(style: Style, n: usize) -> usize
    requires { (fewest_points ≤ n) × (n ≤ most_points) }
    ensures { result ≡ drawing_length style n }
{
    match style {
        Style::OneBend => 42 * n - 60,
        Style::Straight => 30 * n - 36,
    }
}

// 24 where the buffer is shorter than the bytes that are needed.
fn room(out: &[u8], need: usize) -> Answer<()>
    ensures { result ≡ answer (refuse_if (ltb (length out.now) need) OutputShort 0) }
{
    if out.len() < need {
        return Err(Refusal::OutputShort.at(0));
    }
    Ok(())
}

// The drawing file of a finished drawing; its length.
pub fn put_drawing(out: &mut [u8], d: &Drawing) -> Answer<usize>
    requires { Ended d.now }
    ensures { (q : Plan) → Whole q → Is q d.now → Wrote out.old (good (drawing_bytes q)) out.new result }
{
    let need = drawing_length(d.counts.style, d.counts.n);
    room(out, need)?;
    let x = store_looking::settled(d);
    write_drawings::write_drawing(out, &View { drawing: d, x: &x });
    Ok(need)
}

// Compares a file with the drawing file of a finished drawing.
pub fn compare_drawing(file: &[u8], d: &Drawing) -> Answer<()>
    requires { Ended d.now }
    ensures { (q : Plan) → Whole q → Is q d.now → result ≡ answer (compare_bytes 0 file.now (drawing_bytes q)) }
{
    let x = store_looking::settled(d);
    write_drawings::compare_drawing(file, &View { drawing: d, x: &x })
}

// Its order file; the length of that.
pub fn put_order(out: &mut [u8], d: &Drawing) -> Answer<usize>
    requires { Ended d.now }
    ensures { (q : Plan) → Whole q → Is q d.now → Wrote out.old (good (write_order q)) out.new result }
{
    room(out, write_orders::order_length(d.counts))?;
    Ok(write_orders::write_order(out, d))
}

// The drawing file of a drawing, finished or not: 22 while it is unfinished.
pub fn drawing_file(out: &mut [u8], d: &Drawing) -> Answer<usize>
    requires { IsReached d.now }
    ensures { (q : Plan) → Reached q → Is q d.now → Wrote out.old (write_drawing q) out.new result }
{
    store_looking::finished(d.counts)?;
    put_drawing(out, d)
}

// Its order file, in the same manner.
pub fn order_file(out: &mut [u8], d: &Drawing) -> Answer<usize>
    requires { IsReached d.now }
    ensures { (q : Plan) → Reached q → Is q d.now → Wrote out.old (whole_order q) out.new result }
{
    store_looking::finished(d.counts)?;
    put_order(out, d)
}
