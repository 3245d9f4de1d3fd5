// Runs the programs' work on the worked cases in data/, and writes for each its name, what comes out, and a line feed.
// The names stand line by line on standard input, from the file `stdin`. By how its name begins a case is an order file to be drawn straight (`straight`), a straight drawing file to be read (`read`), a drawing file with bends to be read (`undraw`), a net in planar_code to be imported (`net`), one whose vertices are to be printed (`vertices`), or an order file to be drawn with bends.
#![tactic(auto)]

use files::FileError;
use rules::Style;
use std::fs::File;
use std::io;
use std::io::{ErrorKind, Read, Write};
use std::rt::Files;

// Opens a case's file.
fn open<R: Files>(rt: &R, name: &[u8]) -> io::Result<R::File> {
    match std::str::from_utf8(name) {
        Ok(path) => File::open(rt, path),
        Err(_) => Err(io::Error::from(ErrorKind::InvalidFilename)),
    }
}

// Says on standard error why it isn't open.
fn fail<V: Write>(name: &[u8], error: io::Error, errors: &mut V) {
    let _ = files::print(errors, name);
    let _ = writeln!(errors, ": {error}");
}

// What a case's program makes of its file. A table of closures would be no plainer than this match: nothing hands one on, and each arm is another call.
fn work<F: Read, W: Write>(name: &[u8], from: &mut F, to: &mut W) -> Result<(), FileError> {
    match name.first() {
        Some(b's') => files::draw(Style::Straight, from, to),
        Some(b'r') => files::undraw(Style::Straight, from, to),
        Some(b'u') => files::undraw(Style::OneBend, from, to),
        Some(b'n') => files_import::import(from, to),
        Some(b'v') => files_import::import_vertices(from, to),
        _ => files::draw(Style::OneBend, from, to),
    }
}

// One case: its name, what comes out, and a line feed, also after a refusal, which ends its own line.
fn run<R: Files, W: Write, V: Write>(rt: &R, name: &[u8], to: &mut W, errors: &mut V) {
    match open(rt, name) {
        Err(e) => fail(name, e, errors),
        Ok(mut file) => {
            let _ = files::print(to, name);
            let _ = files::print(to, b": ");
            let outcome = work(name, &mut file, to);
            files::report(name, outcome, errors);
            let _ = files::print(to, b"\n");
        }
    }
}

// Every case that a line names, an empty line too; nothing behind the last line feed is no line.
fn run_all<R: Files, W: Write, V: Write>(rt: &R, text: &[u8], to: &mut W, errors: &mut V) {
    for line in text.split_inclusive(|&b| b == b'\n') {
        run(rt, line.strip_suffix(b"\n").unwrap_or(line), to, errors);
    }
}

fn main(rt: HostRuntime) {
    let mut text = [0u8; 4096];
    let read = match files::read_input(&mut rt.stdin(), &mut text) {
        Ok(bytes) => bytes,
        Err(failed) => failed.bytes,
    };
    run_all(&rt, &text[..read], &mut rt.stdout(), &mut rt.stderr());
}
