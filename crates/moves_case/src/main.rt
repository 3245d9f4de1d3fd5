// Prints the cutter moves of document 01's K4 (n = 5, add 1,3, then 1,4,3,2), one line a move, in eighths of a millimetre: drawn by calls with one tool, and from its order file at scale 8 with another. Then those of request 1's worked case of four points, with a feeder and a guide, those of two of request 3's, with bends at points and with guides only, and those of request 2's, the first net drawn straight by calls.
#![tactic(auto)]

ghost use Rattle.std.specs.Prelude.{IfOk};
ghost use Rattle.drawing.specs.View.{Came};
ghost use Rattle.drawing.specs.Places.{IsPlaced};

use drawing::{Drawing, Placed};
use rules::{Answer, Style};
use std::io;
use std::io::Write;
use tool::{Move, Tool};

// A number in eighths; the fraction, if there were one, is dropped.
fn eighths(x: f32) -> u64 {
    tool::whole_part(x * 8.0)
}

fn print_move<W: Write>(to: &mut W, m: Move) -> io::Result<()> {
    match m {
        Move::Travel(x, y) => {
            let (a, b) = (eighths(x), eighths(y));
            write!(to, "travel {a} {b}")
        }
        Move::Plunge(z) => {
            let a = eighths(-z);
            write!(to, "plunge -{a}")
        }
        Move::Cut(x, y) => {
            let (a, b) = (eighths(x), eighths(y));
            write!(to, "cut {a} {b}")
        }
        Move::Lift(z) => {
            let a = eighths(z);
            write!(to, "lift {a}")
        }
    }
}

// Move `number`, or why there is none.
fn print_at<W: Write>(to: &mut W, v: Placed, t: Tool, number: usize) -> io::Result<()>
    requires { IsPlaced v }
{
    match cutter::move_at(v, t, number) {
        Ok(m) => print_move(to, m)?,
        Err(refused) => {
            let n = u16::from(refused.refusal);
            write!(to, "refused {n}")?
        }
    }
    writeln!(to, "")
}

// All moves with a tool, and what the number past them gives.
fn print_all<W: Write>(to: &mut W, v: Placed, t: Tool) -> io::Result<()>
    requires { IsPlaced v }
{
    let Ok(n) = cutter::move_count(v) else {
        return Ok(());
    };
    for number in 0..n {
        print_at(to, v, t, number)?;
    }
    print_at(to, v, t, n)
}

// The moves of a drawing, if none of its calls was refused.
fn print_drawing<W: Write>(to: &mut W, drawn: Answer<Drawing>, t: Tool) -> io::Result<()>
    requires { IfOk drawn (λ d. Came d) }
{
    let Ok(d) = drawn else {
        return Ok(());
    };
    print_all(to, drawing::settle(d), t)
}

// The moves of an order file's drawing.
fn print_order<W: Write>(to: &mut W, order: &[u8], t: Tool) -> io::Result<()> {
    print_drawing(to, panel::drawing_of(Style::OneBend, order), t)
}

// K4 by calls.
fn five_points() -> Answer<Drawing>
    ensures { IfOk result (λ d. Came d) }
{
    let three = drawing::open(Style::OneBend, 5)?;
    let four = drawing::add(three, &[1u16, 3])?;
    drawing::add(four, &[1u16, 4, 3, 2])
}

// A net of four points, drawn straight by calls.
fn four_points() -> Answer<Drawing>
    ensures { IfOk result (λ d. Came d) }
{
    let three = drawing::open(Style::Straight, 4)?;
    drawing::add(three, &[0x4001u16, 0x8003, 2])
}

// A tool of these numbers.
fn tool_of(pitch: f32, depth: f32, clearance: f32) -> Tool {
    Tool {
        pitch,
        depth,
        clearance,
    }
}

fn main(rt: HostRuntime) -> io::Result<()> {
    let mut out = rt.stdout();
    let to = &mut out;
    print_drawing(to, five_points(), tool_of(3.0, 1.0, 80.0))?;
    print_order(
        to,
        b"HD\x00\x05SC\x00\x08PT\x00\x00PT\x00\x01\x00\x01PT\x00\x02\x00\x01\x00\x02PT\x00\x02\x00\x01\x00\x03PT\x00\x04\x00\x01\x00\x04\x00\x03\x00\x02EN",
        tool_of(80.0, 40.0, 1.0),
    )?;
    print_order(
        to,
        b"HD\x00\x04PT\x00\x00PT\x00\x01\x00\x01PT\x00\x02\x00\x01\x00\x02PT\x00\x03\x40\x01\x80\x03\x00\x02EN",
        tool_of(8.0, 8.0, 8.0),
    )?;
    print_order(
        to,
        b"HD\x00\x05PT\x00\x00PT\x00\x01\x00\x01PT\x00\x02\x00\x01\x00\x02PT\x00\x02\x00\x03\x00\x02PT\x00\x04\x00\x01\x00\x03\x00\x04\x00\x02EN",
        tool_of(8.0, 8.0, 8.0),
    )?;
    print_order(
        to,
        b"HD\x00\x04PT\x00\x00PT\x00\x01\x80\x01PT\x00\x02\x80\x01\x80\x02PT\x00\x03\x80\x01\x80\x03\x80\x02EN",
        tool_of(8.0, 8.0, 8.0),
    )?;
    print_drawing(to, four_points(), tool_of(1.0, 1.0, 80.0))
}
