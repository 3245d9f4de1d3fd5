// Parts of what C is told: the three words of a refusal, and a bend as words. For `panel_told`.
#![tactic(auto)]

ghost use Rattle.std.specs.Prelude.{◌≡◌};
ghost use Rattle.panel_words.specs.Words.{number_of, buffer_number, refusal_words, bend_kind, port_of};

use rules::{Bend, Refusal, Refused};

// A buffer that a call can find too short.
#[derive(Clone, Copy, Debug, PartialEq, Eq)]
pub enum Buffer {
    Output,
    Answers,
    Numbers,
    Vertices,
}

// A number stays for each buffer: the C interface has no enum there.
impl From<Buffer> for u64 {
    ghost from_gives = { λ b n. n ≡ number_of b };

    fn from(buffer: Buffer) -> u64 {
        match buffer {
            Buffer::Output => 1,
            Buffer::Answers => 2,
            Buffer::Numbers => 3,
            Buffer::Vertices => 4,
        }
    }
}

// The three words of a refusal: number, place, and which buffer was short, 0 unless the refusal is 24 of a buffer.
pub fn refusal_words(refused: Refused, buffer: Option<Buffer>) -> [u64; 3]
    ensures { result ≡ refusal_words (buffer_number buffer) refused.refusal refused.place }
{
    let number = u64::from(u16::from(refused.refusal));
    let place = refused.place as u64;
    let short = match refused.refusal {
        Refusal::OutputShort => buffer,
        _ => None,
    };
    [number, place, short.map_or(0, u64::from)]
}

// The kind of a bend: 0 straight, 1 at a left port, 2 at a right port, 3 at a middle port. They stay numbers: the C interface has no enum there.
pub fn bend_kind(b: Bend) -> u64
    ensures { result ≡ bend_kind b }
{
    match b {
        Bend::NoBend => 0,
        Bend::Left(_) => 1,
        Bend::Right(_) => 2,
        Bend::Middle(_) => 3,
    }
}

// The index of its port, 0 for straight. It stays 0: the C interface has no Option.
pub fn port_of(b: Bend) -> u64
    ensures { result ≡ port_of b }
{
    match b {
        Bend::NoBend => 0,
        Bend::Left(j) | Bend::Right(j) | Bend::Middle(j) => u64::from(j),
    }
}
