// The import programs' reading and writing, of any reader and writer. What they print is `printing_import`'s, with its proof; only which bytes the system gives to a read and takes from a write is outside it.
#![tactic(auto)]

ghost use Rattle.std.specs.Prelude.{IfSome, OnOk};
ghost use Rattle.std.specs.Io.KnownBytes.{Appends};
ghost use Rattle.planar_rules.specs.Programs.{import_program, vertices_program};

use files::{FileError, ORDER_INPUT};
use planar_rules::{LONGEST_IMPORT, MOST_VERTICES};
use std::io::{Read, Write};

// Room for the lines of all vertices, at most three digits and a line feed each; a number's digits are put where 20 would fit.
const LINES: usize = 4 * MOST_VERTICES + 20;

// The import program, from a file that is open to a writer.
// It and the next stand in the five lines of the programs in `files`, for the reason given there.
pub fn import<R: Read, W: Write>(from: &mut R, to: &mut W) -> Result<(), FileError>
    ensures { OnOk result (IfSome (R.remaining from.old) (λ file. Appends (W.contents to.old) (W.contents to.new) (import_program file))) }
{
    let mut file = [0u8; ORDER_INPUT];
    let read = files::read_input(from, &mut file)?;
    let mut page = [0u8; LONGEST_IMPORT];
    let mut list = [0u8; MOST_VERTICES];
    let filled = printing_import::import_page(&file[..read], &mut page, &mut list);
    files::print(to, &page[..filled])
}

// The program that prints the vertices by point, in the same manner.
pub fn import_vertices<R: Read, W: Write>(from: &mut R, to: &mut W) -> Result<(), FileError>
    ensures { OnOk result (IfSome (R.remaining from.old) (λ file. Appends (W.contents to.old) (W.contents to.new) (vertices_program file))) }
{
    let mut file = [0u8; ORDER_INPUT];
    let read = files::read_input(from, &mut file)?;
    let mut page = [0u8; LINES];
    let mut order = [0u8; LONGEST_IMPORT];
    let mut list = [0u8; MOST_VERTICES];
    let net = &file[..read];
    let filled = printing_import::vertices_page(net, &mut page, &mut order, &mut list);
    files::print(to, &page[..filled])
}
