// The moves programs' reading and writing, of any reader, writer and arguments. What they print is `printing_moves`', with its proof; only which arguments and bytes the system gives, and which it takes, is outside it.
#![tactic(auto)]

ghost use Rattle.std.specs.Prelude.{ℕ, ◌≤◌, List, length, IfSome, OnOk};
ghost use Rattle.rules.specs.Output.{judged_bytes};
ghost use Rattle.printing.specs.Began.{Began};
ghost use Rattle.files_moves.specs.Printing.{PrintsMoves, AppendsMoves};

use files::{FileError, ORDER_INPUT};
use rules::Style;
use std::env::Env;
use std::io::{Read, Write};

// Room for the moves of every drawing: a kind and two numbers each.
const KINDS: usize = 30720;

const NUMBERS: usize = 61440;

// Room for their lines, 32 bytes each, and for a refusal's.
const PAGE: usize = 983104;

// Longer than every word that is a number; a word that doesn't fit counts as an empty one, and neither is a number.
const WORD: usize = 16;

// A word of the program's arguments, put at the start of the buffer: an empty one where there is none or it doesn't fit.
fn word<'b, E: Env>(env: &E, number: usize, buffer: &'b mut [u8]) -> &'b [u8] {
    let bytes = env.arg(number, buffer).unwrap_or(0);
    &buffer[..bytes]
}

// The page begins with what is to be printed of the bytes read of an order file, with the tool of the program's arguments: pitch, depth and clearance. Returns how many bytes that is.
fn fill<E: Env>(style: Style, order: &[u8], page: &mut [u8], env: &E) -> usize
    requires { 983104 ≤ length page.old }
    ensures within { result ≤ length page.new }
    ensures printed { (file : List ℕ) → Began file judged_bytes order.now → PrintsMoves style file page.old page.new result }
{
    let mut pitch = [0u8; WORD];
    let mut depth = [0u8; WORD];
    let mut clearance = [0u8; WORD];
    let mut kinds = [0u8; KINDS];
    let mut numbers = [0.0f32; NUMBERS];
    printing_moves::moves_page(
        style,
        order,
        word(env, 1, &mut pitch),
        word(env, 2, &mut depth),
        word(env, 3, &mut clearance),
        &mut kinds,
        &mut numbers,
        page,
    )
}

// An empty page, from a function of its own: its type tells its length, where the check would count the bytes of a page made in place.
fn blank() -> [u8; PAGE] {
    [0u8; PAGE]
}

// The moves program of a style, from a file that is open to a writer.
pub fn moves<R: Read, W: Write, E: Env>(
    style: Style,
    from: &mut R,
    to: &mut W,
    env: &E,
) -> Result<(), FileError>
    ensures { OnOk result (IfSome (R.remaining from.old) (λ file. AppendsMoves style file (W.contents to.old) (W.contents to.new))) }
{
    let mut order = [0u8; ORDER_INPUT];
    let read = files::read_input(from, &mut order)?;
    let mut page = blank();
    let filled = fill(style, &order[..read], &mut page, env);
    files::print(to, &page[..filled])
}
