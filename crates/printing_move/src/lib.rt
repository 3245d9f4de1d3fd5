// The cutter's moves as lines in millimetres, put into a page. For `printing_moves`: the functions ask for room.
#![tactic(auto)]

ghost use Rattle.std.specs.Prelude.{◌≡◌, ◌+◌, ◌*◌, ◌≤◌, ◌<◌, List, length};
ghost use Rattle.rules.specs.Moves.{Move as WholeMove};
ghost use Rattle.rules.specs.MoveLines.{fraction, millimetres, move_lines};
ghost use Rattle.printing_line.specs.Putting.{Printed};
ghost use Rattle.pages.specs.Pages.{HasRoom, Grown};
ghost use Rattle.printing_line.specs.Pages.{Within};
ghost use Rattle.printing_move.specs.Lines.{limit, number_room, number_most, pair_room, pair_most, move_room, move_most, Eighths, PairLine, HeightLine, MoveLine, MoveOf, Held};

use pages::Page;
use printing_line::put_decimal;
use tool::Move;

// How many eighths of a millimetre x is, if that is a whole number below 2 ^ 24; some such number for any other x. An Option would be no plainer: a tool's moves are all such numbers, and for None there would be nothing to print.
fn eighths(x: f32) -> u64
    ensures { Eighths x result }
{
    tool::whole_part(x * 8.0).min(16777215)
}

// What stands behind the whole millimetres of r eighths.
fn fraction(r: u64) -> &'static [u8]
    ensures exact { result.now ≡ fraction r }
    ensures within { length result.now ≤ 4 }
{
    match r {
        1 => b".125",
        2 => b".25",
        3 => b".375",
        4 => b".5",
        5 => b".625",
        6 => b".75",
        7 => b".875",
        _ => b"",
    }
}

// Puts n eighths of a millimetre into the page, in decimal.
#[tactic(auto, unfolding(rules::specs::MoveLines::millimetres))]
fn put_millimetres(page: &mut Page<'_>, n: u64)
    requires { (n < limit) × HasRoom page.old number_room }
    ensures exact { Grown page.old (millimetres n) page.new }
    ensures within { page.new.at ≤ page.old.at + number_most }
{
    put_decimal(page, n / 8);
    page.text(fraction(n % 8));
}

// Puts the two coordinates of a travel or a cut there, and the line's end.
fn put_pair(page: &mut Page<'_>, x: f32, y: f32)
    requires { HasRoom page.old pair_room }
    ensures exact { PairLine x y page.old page.new }
    ensures within { Within page.old pair_most page.new }
{
    put_millimetres(page, eighths(x));
    page.text(b" ");
    put_millimetres(page, eighths(y));
    page.text(b"\n");
}

// The same of the height of a plunge or a lift.
fn put_height(page: &mut Page<'_>, z: f32)
    requires { HasRoom page.old pair_room }
    ensures exact { HeightLine z page.old page.new }
    ensures within { Within page.old pair_most page.new }
{
    put_millimetres(page, eighths(z));
    page.text(b"\n");
}

// Puts the line of a move there.
fn put_move(page: &mut Page<'_>, m: Move)
    requires { HasRoom page.old move_room }
    ensures exact { MoveLine m page.old page.new }
    ensures within { Within page.old move_most page.new }
{
    match m {
        Move::Travel(x, y) => {
            page.text(b"travel ");
            put_pair(page, x, y);
        }
        Move::Plunge(z) => {
            page.text(b"plunge -");
            put_height(page, -z);
        }
        Move::Cut(x, y) => {
            page.text(b"cut ");
            put_pair(page, x, y);
        }
        Move::Lift(z) => {
            page.text(b"lift ");
            put_height(page, z);
        }
    }
}

// The move of this kind, 1 travel, 2 plunge, 3 cut or 4 lift, with these numbers, as the C interface has it.
fn move_of(kind: u8, x: f32, y: f32) -> Move
    ensures { MoveOf kind x y result }
{
    match kind {
        1 => Move::Travel(x, y),
        2 => Move::Plunge(x),
        3 => Move::Cut(x, y),
        _ => Move::Lift(x),
    }
}

// Begins the page with the lines of the first `count` moves of two buffers, which lie there as the C interface has them. Returns how many bytes that is.
// Two buffers and no MoveLists: it is made where moves are put, and here they are only read.
pub fn put_moves(page: &mut [u8], kinds: &[u8], numbers: &[f32], count: usize) -> usize
    requires { (count ≤ length kinds.now) × (2 * count ≤ length numbers.now) × (move_most * count + move_room ≤ length page.old) }
    ensures { (ms : List WholeMove) → length ms ≡ count → Held ms kinds.now numbers.now → Printed page.old (move_lines ms) page.new result }
{
    let mut lines = Page::new(page);
    for i in 0..count {
        let m = move_of(kinds[i], numbers[2 * i], numbers[2 * i + 1]);
        put_move(&mut lines, m);
    }
    lines.at
}
