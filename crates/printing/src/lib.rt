// What the programs print, in either style: from the bytes read to the bytes to write, proved equal to `Output.program` and `Output.back_program`.
// The functions ask for pages of document 01's sizes, so that 24 never happens; `files` has them.
// Each gives a length within its page, here and in the crates beside this one: a slice of the page in its place would be no plainer, since the page would stay lent as long as that.
#![tactic(auto)]

ghost use Rattle.std.specs.Prelude.{ℕ, ◌≤◌, ◌<◌, List, length};
ghost use Rattle.rules.specs.Refusals.{Result as Wanted};
ghost use Rattle.rules.specs.OrderFile.{longest_order};
ghost use Rattle.rules.specs.DrawingFile.{longest_drawing};
ghost use Rattle.rules.specs.Output.{printed, judged_bytes, program, back_program};
ghost use Rattle.write_files.specs.Outputs.{Wrote};
ghost use Rattle.printing_line.specs.Putting.{Printed, line_room};
ghost use Rattle.printing.specs.Finishing.{Room};
ghost use Rattle.printing.specs.Began.{Began};

use rules::{Answer, Style};

// The page begins with what was written into it, or with the line of the refusal. Returns how many bytes that is.
fn finish(written: Answer<usize>, page: &mut [u8]) -> usize
    requires { line_room ≤ length page.old }
    ensures { (before : List ℕ) (wanted : Wanted (List ℕ)) → Room before wanted → Wrote before wanted page.old written → Printed before (printed wanted) page.new result }
{
    match written {
        Ok(count) => count,
        Err(refused) => printing_line::put_refusal(page, refused),
    }
}

// A drawing program: the page begins with what is to be printed of an order file, of which these bytes were read.
// Returns how many bytes that is. It judges the first 32,768 bytes of the file as the whole file.
pub fn draw_page(style: Style, order: &[u8], page: &mut [u8]) -> usize
    requires { longest_drawing ≤ length page.old }
    ensures within { result ≤ length page.new }
    ensures prints { (file : List ℕ) → Began file judged_bytes order.now → Printed page.old (program style file) page.new result }
{
    let written = panel::draw(style, order, page);
    finish(written, page)
}

// A reading program, in the same manner. More bytes than any drawing file has tell as much as the whole file.
pub fn undraw_page(style: Style, drawing: &[u8], page: &mut [u8]) -> usize
    requires { longest_order ≤ length page.old }
    ensures within { result ≤ length page.new }
    ensures prints { (file : List ℕ) (size : ℕ) → longest_drawing < size → Began file size drawing.now → Printed page.old (back_program style file) page.new result }
{
    let written = panel::undraw(style, drawing, page);
    finish(written, page)
}
