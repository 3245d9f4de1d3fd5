// What the moves programs print, in either style: from the bytes and words read to the bytes to write, proved equal to `MoveLines.moves_program`.
// The functions ask for buffers for the moves of every drawing, so that 24 never happens; `files_moves` has them.
#![tactic(auto)]

ghost use Rattle.std.specs.Prelude.{ℕ, ◌≤◌, List, length};
ghost use Rattle.rules.specs.MoveLines.{words_tool, moves_program};
ghost use Rattle.rules.specs.Output.{judged_bytes};
ghost use Rattle.printing_line.specs.Putting.{Printed};
ghost use Rattle.printing_listed.specs.Finishing.{lines_of};
ghost use Rattle.printing.specs.Began.{Began};
ghost use Rattle.printing_moves.specs.Paging.{Room, moves_in};

use rules::Style;
use store_tables::Drawing;
use tool::Tool;

// The page begins with the moves of an order file's drawing for this tool, or with the line of the refusal. Returns how many bytes that is.
// Two buffers and no MoveLists: the call that lists the moves and the one that prints them would each take it apart.
fn tool_page(
    style: Style,
    order: &[u8],
    t: Tool,
    kinds: &mut [u8],
    numbers: &mut [f32],
    page: &mut [u8],
) -> usize
    requires { Room (length kinds.old) (length numbers.old) (length page.old) }
    ensures { Printed page.old (lines_of (moves_in style order.now t)) page.new result }
{
    let mut d = Drawing::blank();
    let drawn = read_orders::read_order(order, style, &mut d);
    let listed = panel_asked::moves_from(drawn, &d, t, kinds, numbers);
    printing_listed::finish(listed, kinds, numbers, page)
}

// A moves program: these bytes of an order file were read, and three words are the tool; the page then begins with what is to be printed.
// Returns how many bytes that is. As the drawing program, it judges the first 32,768 bytes of the file as the whole file.
pub fn moves_page(
    style: Style,
    order: &[u8],
    pitch: &[u8],
    depth: &[u8],
    clearance: &[u8],
    kinds: &mut [u8],
    numbers: &mut [f32],
    page: &mut [u8],
) -> usize
    requires { Room (length kinds.old) (length numbers.old) (length page.old) }
    ensures within { result ≤ length page.new }
    ensures prints { (file : List ℕ) → Began file judged_bytes order.now → Printed page.old (moves_program style (words_tool pitch.now depth.now clearance.now) file) page.new result }
{
    let t = printing_words::words_tool(pitch, depth, clearance);
    tool_page(style, order, t, kinds, numbers, page)
}
