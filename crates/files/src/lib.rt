// The programs' reading and writing, of any reader and writer. What they print is `printing`'s, with its proof; only which bytes the system gives to a read and takes from a write is outside it.
#![tactic(auto)]

ghost use Rattle.std.specs.Prelude.{◌≡◌, ◌≤◌, length, take, IfSome, IfOk, IfErr, OnOk};
ghost use Rattle.std.specs.Io.KnownBytes.{Appends};
ghost use Rattle.rules.specs.Output.{program, back_program};
ghost use Rattle.printing.specs.Began.{Began};
ghost use Rattle.files.specs.declared.FileError.TheVariants.{NotRead};

use rules::{LONGEST_DRAWING, LONGEST_ORDER, Style};
use std::error::Error;
use std::fmt;
use std::io::{Read, Write};

// "It judges the first 32,768 bytes of its input as the whole file."
pub const ORDER_INPUT: usize = 32768;

// Room for every drawing file and more.
const DRAWING_INPUT: usize = 65536;

// Why a program didn't do its work: the input couldn't be read, or not all of the output was written.
#[derive(Clone, Copy, Debug, PartialEq, Eq)]
pub enum FileError {
    NotRead,
    NotWritten,
}

impl FileError {
    // The line that stands behind the program's name, in one piece, so that one write can take it.
    fn line(self) -> &'static str {
        match self {
            FileError::NotRead => ": the input could not be read\n",
            FileError::NotWritten => ": not all of the output was written\n",
        }
    }
}

impl fmt::Display for FileError {
    fn fmt<W: fmt::Write>(&self, f: &mut fmt::Formatter<W>) -> fmt::Result {
        f.write_str(self.line().trim_matches([':', ' ', '\n']))
    }
}

impl Error for FileError {}

// A read that failed, and how many bytes stand at the start of the buffer all the same.
#[derive(Clone, Copy, Debug, PartialEq, Eq)]
pub struct ReadFailed {
    pub bytes: usize,
}

impl From<ReadFailed> for FileError {
    ghost from_gives = { λ _ e. e ≡ NotRead };

    fn from(_failed: ReadFailed) -> FileError {
        FileError::NotRead
    }
}

// Reads until the buffer is full, the input ends or a read fails. Returns how many bytes stand at the start of the buffer.
// The loop is written out, since the library's `read_to_end` fills a `Vec`, and this project has no heap.
pub fn read_input<R: Read>(from: &mut R, buffer: &mut [u8]) -> Result<usize, ReadFailed>
    ensures within { IfOk result (λ bytes. bytes ≤ length buffer.new) }
    ensures failed_within { IfErr result (λ e. e.bytes ≤ length buffer.new) }
    ensures began { IfOk result (λ bytes. IfSome (R.remaining from.old) (λ file. Began file (length buffer.old) (take bytes buffer.new))) }
{
    let mut bytes = 0;
    while bytes < buffer.len() {
        match from.read(&mut buffer[bytes..]) {
            Ok(0) => break,
            Ok(more) => bytes += more,
            Err(_) => return Err(ReadFailed { bytes }),
        }
    }
    Ok(bytes)
}

// Writes the bytes, to standard output in the programs. A write that fails or takes nothing ends it.
// The loop is written out, since the library's `write_all` tries an interrupted write again, and so for ever with a writer that is always interrupted.
pub fn print<W: Write>(to: &mut W, bytes: &[u8]) -> Result<(), FileError>
    ensures { OnOk result (Appends (W.contents to.old) (W.contents to.new) bytes.now) }
{
    let mut done = 0;
    while done < bytes.len() {
        match to.write(&bytes[done..]) {
            Ok(0) | Err(_) => return Err(FileError::NotWritten),
            Ok(more) => done += more,
        }
    }
    Ok(())
}

// The drawing program of a style, from a file that is open to a writer.
// Each program reads, fills a page and prints in these five lines: one function for all, generic over a closure that fills, was tried, and its proof didn't close where the closure keeps the style. A trait would be no plainer: an impl for each program would be as long as these functions.
pub fn draw<R: Read, W: Write>(style: Style, from: &mut R, to: &mut W) -> Result<(), FileError>
    ensures { OnOk result (IfSome (R.remaining from.old) (λ file. Appends (W.contents to.old) (W.contents to.new) (program style file))) }
{
    let mut order = [0u8; ORDER_INPUT];
    let read = read_input(from, &mut order)?;
    let mut page = [0u8; LONGEST_DRAWING];
    let filled = printing::draw_page(style, &order[..read], &mut page);
    print(to, &page[..filled])
}

// The reading program of a style, in the same manner.
pub fn undraw<R: Read, W: Write>(style: Style, from: &mut R, to: &mut W) -> Result<(), FileError>
    ensures { OnOk result (IfSome (R.remaining from.old) (λ file. Appends (W.contents to.old) (W.contents to.new) (back_program style file))) }
{
    let mut drawing = [0u8; DRAWING_INPUT];
    let read = read_input(from, &mut drawing)?;
    let mut page = [0u8; LONGEST_ORDER];
    let filled = printing::undraw_page(style, &drawing[..read], &mut page);
    print(to, &page[..filled])
}

// Says, on standard error in the programs, behind the program's name, what failed: the programs' exit status stays 0.
pub fn report<W: Write>(program: &[u8], outcome: Result<(), FileError>, to: &mut W) {
    if let Err(error) = outcome {
        let _ = print(to, program);
        let _ = print(to, error.line().as_bytes());
    }
}
