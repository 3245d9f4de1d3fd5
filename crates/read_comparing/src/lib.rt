// 11: the first byte where two files differ.
#![tactic(auto)]

ghost use Rattle.std.specs.Prelude.{◌≡◌, ◌≤◌, [], length, drop};
ghost use Rattle.rules.specs.Refusals.{answer};
ghost use Rattle.rules.specs.DrawingFile.{compare_bytes};
ghost use Rattle.read_comparing.specs.Parts.{part_compared};

use rules::{Answer, Refusal};

// Compares a file with what it should be. Most are the same, and `==` sees that sooner than the loop would.
pub fn compare(a: &[u8], b: &[u8]) -> Answer<()>
    ensures { result ≡ answer (compare_bytes 0 a.now b.now) }
{
    if a == b {
        return Ok(());
    }
    let shared = a.len().min(b.len());
    for i in 0..shared {
        if a[i] != b[i] {
            return Err(Refusal::OtherDrawing.at(i));
        }
    }
    Err(Refusal::OtherDrawing.at(shared))
}

// Compares the bytes of a file from `at` on with the next part of what it should be; the place behind them.
pub fn compare_part(file: &[u8], at: usize, part: &[u8]) -> Answer<usize>
    requires { at ≤ length file.now }
    ensures { result ≡ part_compared file.now at part.now }
{
    let end = file.len().min(at + part.len());
    match compare(&file[at..end], part) {
        Ok(()) => Ok(end),
        Err(refused) => Err(refused.refusal.at(at + refused.place)),
    }
}

// Compares what is left of a file from `at` on with nothing: all of what it should be stands before it.
pub fn compare_end(file: &[u8], at: usize) -> Answer<()>
    requires { at ≤ length file.now }
    ensures { result ≡ answer (compare_bytes at (drop at file.now) []) }
{
    if at < file.len() {
        return Err(Refusal::OtherDrawing.at(at));
    }
    Ok(())
}
