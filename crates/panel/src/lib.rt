// Order files into drawing files and back, in buffers that the caller lends; and both files of a drawing, and the drawing of an order file.
#![tactic(auto)]

ghost use Rattle.std.specs.Prelude.{◌≡◌};
ghost use Rattle.rules.specs.Refusals.{good};
ghost use Rattle.rules.specs.Points.{Drawing as Plan};
ghost use Rattle.rules.specs.OrderFile.{read_order};
ghost use Rattle.rules.specs.DrawingFile.{write_drawing, draw_file, read_drawing, order_back};
ghost use Rattle.promise.specs.Promise.{Promised};
ghost use Rattle.store_laws.specs.Stored.{Is};
ghost use Rattle.exchange.specs.Built.{Reached};
ghost use Rattle.drawing.specs.View.{Came};
ghost use Rattle.drawing.specs.Opens.{Gives};
ghost use Rattle.write_files.specs.Outputs.{Wrote};
ghost use Rattle.write_files.specs.Finishing.{whole_order};

use drawing::Drawing;
use rules::{Answer, Style};

// The drawing of an order file in a style, by value, which keeps the promise of that style, or the refusal of document 01.
#[tactic(auto, using(crate::proofs::Keeping::keeping))]
pub fn drawing_of(style: Style, order: &[u8]) -> Answer<Drawing>
    ensures given { Gives (read_order style order.now) result }
    ensures keeps { (d : Plan) → read_order style order.now ≡ good d → Promised style d }
{
    let mut drawn = Drawing::blank();
    read_orders::read_order(order, style, &mut drawn)?;
    Ok(drawn)
}

// The drawing file of a drawing by value.
pub fn drawing_file(d: Drawing, out: &mut [u8]) -> Answer<usize>
    requires { Came d }
    ensures { (q : Plan) → Reached q → Is q d → Wrote out.old (write_drawing q) out.new result }
{
    write_files::drawing_file(out, &d)
}

// Its order file, in the same manner.
pub fn order_file(d: Drawing, out: &mut [u8]) -> Answer<usize>
    requires { Came d }
    ensures { (q : Plan) → Reached q → Is q d → Wrote out.old (whole_order q) out.new result }
{
    write_files::order_file(out, &d)
}

// Draws an order file in a style: the drawing file of its drawing, which keeps the promise of that style, or the refusal of document 01.
#[tactic(auto, using(crate::proofs::Keeping::keeping))]
pub fn draw(style: Style, order: &[u8], out: &mut [u8]) -> Answer<usize>
    ensures wrote { Wrote out.old (draw_file style order.now) out.new result }
    ensures keeps { (d : Plan) → read_order style order.now ≡ good d → Promised style d }
{
    let mut d = Drawing::blank();
    read_orders::read_order(order, style, &mut d)?;
    write_files::put_drawing(out, &d)
}

// Reads a drawing file of a style, whose drawing keeps the promise of that style, and gives its order file back, or the refusal of document 01.
#[tactic(auto, using(crate::proofs::Keeping::keeping))]
pub fn undraw(style: Style, file: &[u8], out: &mut [u8]) -> Answer<usize>
    ensures wrote { Wrote out.old (order_back style file.now) out.new result }
    ensures keeps { (d : Plan) → read_drawing style file.now ≡ good d → Promised style d }
{
    let mut d = Drawing::blank();
    read_drawings::read_lines(file, style, &mut d)?;
    write_files::compare_drawing(file, &d)?;
    write_files::put_order(out, &d)
}
