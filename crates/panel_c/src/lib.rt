// What C and Rust call: numbers, slices and arrays only, and no `requires`. Each call on drawings is there twice, for those with bends and, named `panel_straight_..`, for straight ones.
// C has no generics and none of our structs: so each call has a name for each style, a tool comes as three numbers, and moves go into two slices.
// Each call puts three words of a refusal into `refusal`: its number, its place, and at 24 which buffer was short, 1 the output (of moves: the kinds), 2 the answers, 3 the numbers of moves or 4 the list of vertices; all 0 for none.
#![tactic(auto)]

ghost use Rattle.rules.specs.declared.Style.TheVariants.{OneBend, Straight};
ghost use Rattle.rules.specs.DrawingFile.{draw_file, order_back};
ghost use Rattle.panel_words.specs.Words.{output_buffer};
ghost use Rattle.panel_asked.specs.Questions.{move_asked, point_asked, line_asked, ends_asked, cut_asked};
ghost use Rattle.panel_doors.specs.Exported.{Exported, CallsExported};
ghost use Rattle.panel_doors.specs.Asked.{OrderAsked, CallsAsked};
ghost use Rattle.panel_doors.specs.Imports.{ImportTold};
ghost use Rattle.panel_doors.specs.Moves.{OrderMoves, CallsMoves};

use panel_asked::{CutAsked, EndsAsked, LineAsked, MoveAsked, PointAsked};
use panel_doors::{Calls, OrderFile};
use rules::Style;
use tool::Tool;

// Draws an order file: the number of bytes written.
#[unsafe(no_mangle)]
pub extern "C" fn panel_draw(order: &[u8], out: &mut [u8], refusal: &mut [u64; 3]) -> u64
    ensures { Exported output_buffer out.old (draw_file OneBend order.now) out.new result refusal.new }
{
    panel_doors::draw(Style::OneBend, order, out, refusal)
}

// Reads a drawing file: the number of bytes of its order file.
#[unsafe(no_mangle)]
pub extern "C" fn panel_undraw(drawing: &[u8], out: &mut [u8], refusal: &mut [u64; 3]) -> u64
    ensures { Exported output_buffer out.old (order_back OneBend drawing.now) out.new result refusal.new }
{
    panel_doors::undraw(Style::OneBend, drawing, out, refusal)
}

// Opens a drawing for n points and makes the calls: every answer in two words, and the drawing file of what they drew. The answers are written also where the drawing is refused.
#[unsafe(no_mangle)]
pub extern "C" fn panel_calls(
    n: usize,
    calls: &[u16],
    answers: &mut [u16],
    out: &mut [u8],
    refusal: &mut [u64; 3],
) -> u64
    ensures { CallsExported OneBend n calls.now answers.old answers.new out.old out.new result refusal.new }
{
    panel_doors::file(Style::OneBend, Calls { n, calls }, answers, out, refusal)
}

// Move `number`, from 0, of an order file's drawing.
#[unsafe(no_mangle)]
pub extern "C" fn panel_move(
    order: &[u8],
    pitch: f32,
    depth: f32,
    clearance: f32,
    number: usize,
    at: &mut [f32; 2],
    refusal: &mut [u64; 3],
) -> u64
    ensures { OrderAsked OneBend (move_asked (record { pitch = pitch; depth = depth; clearance = clearance }) number) order.now at.old at.new result refusal.new }
{
    let tool = Tool {
        pitch,
        depth,
        clearance,
    };
    panel_doors::ask(
        Style::OneBend,
        OrderFile(order),
        &mut [],
        MoveAsked { tool, number },
        at,
        refusal,
    )
}

// The same of the drawing that a list of calls leaves.
#[unsafe(no_mangle)]
pub extern "C" fn panel_calls_move(
    n: usize,
    calls: &[u16],
    answers: &mut [u16],
    pitch: f32,
    depth: f32,
    clearance: f32,
    number: usize,
    at: &mut [f32; 2],
    refusal: &mut [u64; 3],
) -> u64
    ensures { CallsAsked OneBend (move_asked (record { pitch = pitch; depth = depth; clearance = clearance }) number) n calls.now answers.old answers.new at.old at.new result refusal.new }
{
    let tool = Tool {
        pitch,
        depth,
        clearance,
    };
    panel_doors::ask(
        Style::OneBend,
        Calls { n, calls },
        answers,
        MoveAsked { tool, number },
        at,
        refusal,
    )
}

// All moves of an order file's drawing, in their order: how many there are.
#[unsafe(no_mangle)]
pub extern "C" fn panel_moves(
    order: &[u8],
    pitch: f32,
    depth: f32,
    clearance: f32,
    kinds: &mut [u8],
    numbers: &mut [f32],
    refusal: &mut [u64; 3],
) -> u64
    ensures { OrderMoves OneBend (record { pitch = pitch; depth = depth; clearance = clearance }) order.now kinds.old numbers.old kinds.new numbers.new result refusal.new }
{
    let tool = Tool {
        pitch,
        depth,
        clearance,
    };
    panel_doors::moves(
        Style::OneBend,
        OrderFile(order),
        &mut [],
        tool,
        kinds,
        numbers,
        refusal,
    )
}

// The same of the drawing that a list of calls leaves.
#[unsafe(no_mangle)]
pub extern "C" fn panel_calls_moves(
    n: usize,
    calls: &[u16],
    answers: &mut [u16],
    pitch: f32,
    depth: f32,
    clearance: f32,
    kinds: &mut [u8],
    numbers: &mut [f32],
    refusal: &mut [u64; 3],
) -> u64
    ensures { CallsMoves OneBend (record { pitch = pitch; depth = depth; clearance = clearance }) n calls.now answers.old answers.new kinds.old numbers.old kinds.new numbers.new result refusal.new }
{
    let tool = Tool {
        pitch,
        depth,
        clearance,
    };
    panel_doors::moves(
        Style::OneBend,
        Calls { n, calls },
        answers,
        tool,
        kinds,
        numbers,
        refusal,
    )
}

// A point's place in an order file's drawing.
#[unsafe(no_mangle)]
pub extern "C" fn panel_point(
    order: &[u8],
    point: usize,
    seen: &mut [u64; 2],
    refusal: &mut [u64; 3],
) -> u64
    ensures { OrderAsked OneBend (point_asked point) order.now seen.old seen.new result refusal.new }
{
    panel_doors::ask(
        Style::OneBend,
        OrderFile(order),
        &mut [],
        PointAsked(point),
        seen,
        refusal,
    )
}

// The same of the drawing that a list of calls leaves, finished or not.
#[unsafe(no_mangle)]
pub extern "C" fn panel_calls_point(
    n: usize,
    calls: &[u16],
    answers: &mut [u16],
    point: usize,
    seen: &mut [u64; 2],
    refusal: &mut [u64; 3],
) -> u64
    ensures { CallsAsked OneBend (point_asked point) n calls.now answers.old answers.new seen.old seen.new result refusal.new }
{
    panel_doors::ask(
        Style::OneBend,
        Calls { n, calls },
        answers,
        PointAsked(point),
        seen,
        refusal,
    )
}

// Line `line`, from 0, of an order file's drawing.
#[unsafe(no_mangle)]
pub extern "C" fn panel_line(
    order: &[u8],
    line: usize,
    seen: &mut [u64; 7],
    refusal: &mut [u64; 3],
) -> u64
    ensures { OrderAsked OneBend (line_asked line) order.now seen.old seen.new result refusal.new }
{
    panel_doors::ask(
        Style::OneBend,
        OrderFile(order),
        &mut [],
        LineAsked(line),
        seen,
        refusal,
    )
}

// The same of the drawing that a list of calls leaves, finished or not.
#[unsafe(no_mangle)]
pub extern "C" fn panel_calls_line(
    n: usize,
    calls: &[u16],
    answers: &mut [u16],
    line: usize,
    seen: &mut [u64; 7],
    refusal: &mut [u64; 3],
) -> u64
    ensures { CallsAsked OneBend (line_asked line) n calls.now answers.old answers.new seen.old seen.new result refusal.new }
{
    panel_doors::ask(
        Style::OneBend,
        Calls { n, calls },
        answers,
        LineAsked(line),
        seen,
        refusal,
    )
}

// A cut line of an order file's drawing that ends at a point, or that there is none.
#[unsafe(no_mangle)]
pub extern "C" fn panel_cut_line(
    order: &[u8],
    point: usize,
    seen: &mut [u64; 1],
    refusal: &mut [u64; 3],
) -> u64
    ensures { OrderAsked OneBend (cut_asked point) order.now seen.old seen.new result refusal.new }
{
    panel_doors::ask(
        Style::OneBend,
        OrderFile(order),
        &mut [],
        CutAsked(point),
        seen,
        refusal,
    )
}

// The same of the drawing that a list of calls leaves, finished or not.
#[unsafe(no_mangle)]
pub extern "C" fn panel_calls_cut_line(
    n: usize,
    calls: &[u16],
    answers: &mut [u16],
    point: usize,
    seen: &mut [u64; 1],
    refusal: &mut [u64; 3],
) -> u64
    ensures { CallsAsked OneBend (cut_asked point) n calls.now answers.old answers.new seen.old seen.new result refusal.new }
{
    panel_doors::ask(
        Style::OneBend,
        Calls { n, calls },
        answers,
        CutAsked(point),
        seen,
        refusal,
    )
}

// Draws an order file straight: the number of bytes written.
#[unsafe(no_mangle)]
pub extern "C" fn panel_straight_draw(order: &[u8], out: &mut [u8], refusal: &mut [u64; 3]) -> u64
    ensures { Exported output_buffer out.old (draw_file Straight order.now) out.new result refusal.new }
{
    panel_doors::draw(Style::Straight, order, out, refusal)
}

// Reads a straight drawing file: the number of bytes of its order file.
#[unsafe(no_mangle)]
pub extern "C" fn panel_straight_undraw(
    drawing: &[u8],
    out: &mut [u8],
    refusal: &mut [u64; 3],
) -> u64
    ensures { Exported output_buffer out.old (order_back Straight drawing.now) out.new result refusal.new }
{
    panel_doors::undraw(Style::Straight, drawing, out, refusal)
}

// `panel_calls` of straight drawings.
#[unsafe(no_mangle)]
pub extern "C" fn panel_straight_calls(
    n: usize,
    calls: &[u16],
    answers: &mut [u16],
    out: &mut [u8],
    refusal: &mut [u64; 3],
) -> u64
    ensures { CallsExported Straight n calls.now answers.old answers.new out.old out.new result refusal.new }
{
    panel_doors::file(Style::Straight, Calls { n, calls }, answers, out, refusal)
}

// `panel_move` of straight drawings.
#[unsafe(no_mangle)]
pub extern "C" fn panel_straight_move(
    order: &[u8],
    pitch: f32,
    depth: f32,
    clearance: f32,
    number: usize,
    at: &mut [f32; 2],
    refusal: &mut [u64; 3],
) -> u64
    ensures { OrderAsked Straight (move_asked (record { pitch = pitch; depth = depth; clearance = clearance }) number) order.now at.old at.new result refusal.new }
{
    let tool = Tool {
        pitch,
        depth,
        clearance,
    };
    panel_doors::ask(
        Style::Straight,
        OrderFile(order),
        &mut [],
        MoveAsked { tool, number },
        at,
        refusal,
    )
}

// `panel_calls_move` of straight drawings.
#[unsafe(no_mangle)]
pub extern "C" fn panel_straight_calls_move(
    n: usize,
    calls: &[u16],
    answers: &mut [u16],
    pitch: f32,
    depth: f32,
    clearance: f32,
    number: usize,
    at: &mut [f32; 2],
    refusal: &mut [u64; 3],
) -> u64
    ensures { CallsAsked Straight (move_asked (record { pitch = pitch; depth = depth; clearance = clearance }) number) n calls.now answers.old answers.new at.old at.new result refusal.new }
{
    let tool = Tool {
        pitch,
        depth,
        clearance,
    };
    panel_doors::ask(
        Style::Straight,
        Calls { n, calls },
        answers,
        MoveAsked { tool, number },
        at,
        refusal,
    )
}

// `panel_moves` of straight drawings.
#[unsafe(no_mangle)]
pub extern "C" fn panel_straight_moves(
    order: &[u8],
    pitch: f32,
    depth: f32,
    clearance: f32,
    kinds: &mut [u8],
    numbers: &mut [f32],
    refusal: &mut [u64; 3],
) -> u64
    ensures { OrderMoves Straight (record { pitch = pitch; depth = depth; clearance = clearance }) order.now kinds.old numbers.old kinds.new numbers.new result refusal.new }
{
    let tool = Tool {
        pitch,
        depth,
        clearance,
    };
    panel_doors::moves(
        Style::Straight,
        OrderFile(order),
        &mut [],
        tool,
        kinds,
        numbers,
        refusal,
    )
}

// `panel_calls_moves` of straight drawings.
#[unsafe(no_mangle)]
pub extern "C" fn panel_straight_calls_moves(
    n: usize,
    calls: &[u16],
    answers: &mut [u16],
    pitch: f32,
    depth: f32,
    clearance: f32,
    kinds: &mut [u8],
    numbers: &mut [f32],
    refusal: &mut [u64; 3],
) -> u64
    ensures { CallsMoves Straight (record { pitch = pitch; depth = depth; clearance = clearance }) n calls.now answers.old answers.new kinds.old numbers.old kinds.new numbers.new result refusal.new }
{
    let tool = Tool {
        pitch,
        depth,
        clearance,
    };
    panel_doors::moves(
        Style::Straight,
        Calls { n, calls },
        answers,
        tool,
        kinds,
        numbers,
        refusal,
    )
}

// `panel_point` of straight drawings.
#[unsafe(no_mangle)]
pub extern "C" fn panel_straight_point(
    order: &[u8],
    point: usize,
    seen: &mut [u64; 2],
    refusal: &mut [u64; 3],
) -> u64
    ensures { OrderAsked Straight (point_asked point) order.now seen.old seen.new result refusal.new }
{
    panel_doors::ask(
        Style::Straight,
        OrderFile(order),
        &mut [],
        PointAsked(point),
        seen,
        refusal,
    )
}

// `panel_calls_point` of straight drawings.
#[unsafe(no_mangle)]
pub extern "C" fn panel_straight_calls_point(
    n: usize,
    calls: &[u16],
    answers: &mut [u16],
    point: usize,
    seen: &mut [u64; 2],
    refusal: &mut [u64; 3],
) -> u64
    ensures { CallsAsked Straight (point_asked point) n calls.now answers.old answers.new seen.old seen.new result refusal.new }
{
    panel_doors::ask(
        Style::Straight,
        Calls { n, calls },
        answers,
        PointAsked(point),
        seen,
        refusal,
    )
}

// `panel_line` of straight drawings: a line has no bend.
#[unsafe(no_mangle)]
pub extern "C" fn panel_straight_line(
    order: &[u8],
    line: usize,
    seen: &mut [u64; 3],
    refusal: &mut [u64; 3],
) -> u64
    ensures { OrderAsked Straight (ends_asked line) order.now seen.old seen.new result refusal.new }
{
    panel_doors::ask(
        Style::Straight,
        OrderFile(order),
        &mut [],
        EndsAsked(line),
        seen,
        refusal,
    )
}

// `panel_calls_line` of straight drawings: a line has no bend.
#[unsafe(no_mangle)]
pub extern "C" fn panel_straight_calls_line(
    n: usize,
    calls: &[u16],
    answers: &mut [u16],
    line: usize,
    seen: &mut [u64; 3],
    refusal: &mut [u64; 3],
) -> u64
    ensures { CallsAsked Straight (ends_asked line) n calls.now answers.old answers.new seen.old seen.new result refusal.new }
{
    panel_doors::ask(
        Style::Straight,
        Calls { n, calls },
        answers,
        EndsAsked(line),
        seen,
        refusal,
    )
}

// `panel_cut_line` of straight drawings.
#[unsafe(no_mangle)]
pub extern "C" fn panel_straight_cut_line(
    order: &[u8],
    point: usize,
    seen: &mut [u64; 1],
    refusal: &mut [u64; 3],
) -> u64
    ensures { OrderAsked Straight (cut_asked point) order.now seen.old seen.new result refusal.new }
{
    panel_doors::ask(
        Style::Straight,
        OrderFile(order),
        &mut [],
        CutAsked(point),
        seen,
        refusal,
    )
}

// `panel_calls_cut_line` of straight drawings.
#[unsafe(no_mangle)]
pub extern "C" fn panel_straight_calls_cut_line(
    n: usize,
    calls: &[u16],
    answers: &mut [u16],
    point: usize,
    seen: &mut [u64; 1],
    refusal: &mut [u64; 3],
) -> u64
    ensures { CallsAsked Straight (cut_asked point) n calls.now answers.old answers.new seen.old seen.new result refusal.new }
{
    panel_doors::ask(
        Style::Straight,
        Calls { n, calls },
        answers,
        CutAsked(point),
        seen,
        refusal,
    )
}

// Reads a net in planar_code: its order file, and the list of its vertices by point. The number of bytes of the order file, 10n - 6; the list has n.
#[unsafe(no_mangle)]
pub extern "C" fn panel_import(
    file: &[u8],
    order: &mut [u8],
    vertices: &mut [u8],
    refusal: &mut [u64; 3],
) -> u64
    ensures { ImportTold file.now order.old vertices.old order.new vertices.new result refusal.new }
{
    panel_doors::import(file, order, vertices, refusal)
}
