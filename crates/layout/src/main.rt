// Times the layout: runs one list of calls many times, and prints how many points were placed.
// Standard input holds 16-bit numbers, low byte first: n, the number of rounds, then the calls, each a count and its entries.
#![tactic(auto)]

ghost use Rattle.std.specs.Prelude.{◌≤◌, length};

use rules::Style;
use std::io;

// Turns the bytes into numbers, as many as both hold; gives how many.
fn take_words(bytes: &[u8], out: &mut [u16]) -> usize
    ensures { result ≤ length out.new }
{
    let count = (bytes.len() / 2).min(out.len());
    for i in 0..count {
        out[i] = u16::from_le_bytes([bytes[2 * i], bytes[2 * i + 1]]);
    }
    count
}

// Makes the calls `rounds` times; gives the number of points placed, or none if the calls are refused or a round's drawing differs from the one before.
// Of the points, the lines and the answers one is compared: the compiler can't know which, so it can't leave out the work of storing them all.
fn repeat(n: usize, rounds: usize, calls: &[u16]) -> Option<usize> {
    let mut answers = [0u16; 2048];
    let at = rounds % 1024;
    let mut seen = None;
    let mut placed = 0;
    for _ in 0..rounds {
        let drawn = calls::run(Style::OneBend, n, calls, &mut answers).ok()?;
        let kept = (drawn.table.points[at], drawn.table.lines[at], answers[at]);
        if let Some(before) = seen {
            if kept != before {
                return None;
            }
        }
        seen = Some(kept);
        placed = drawn.counts.k;
    }
    Some(placed)
}

// Reads the numbers, those before a read that fails, makes the calls and prints the line, 0 for none; fewer than two numbers give no line.
fn main(rt: HostRuntime) -> io::Result<()> {
    let mut bytes = [0u8; 131072];
    let got = match files::read_input(&mut rt.stdin(), &mut bytes) {
        Ok(bytes) => bytes,
        Err(failed) => failed.bytes,
    };
    let mut numbers = [0u16; 65536];
    let count = take_words(&bytes[..got], &mut numbers);
    if count < 2 {
        return Ok(());
    }
    let n = usize::from(numbers[0]);
    let rounds = usize::from(numbers[1]);
    let placed = repeat(n, rounds, &numbers[2..count]).unwrap_or(0);
    println!(rt; "{placed}")
}
