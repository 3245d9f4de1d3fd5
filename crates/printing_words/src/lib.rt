// The tool from a program's three arguments: words of decimal digits. For `printing_moves`.
#![tactic(auto)]

ghost use Rattle.std.specs.Prelude.{◌≡◌};
ghost use Rattle.rules.specs.MoveLines.{word_number, words_tool};
ghost use Rattle.printing_words.specs.Numbers.{word_value, ToolNumber, SameTool};

use tool::Tool;

// The number of a word of one to eight decimal digits. `parse` would be no plainer: it takes a sign too.
fn word_number(word: &[u8]) -> Option<u32>
    ensures { result ≡ word_value word.now }
{
    if word.is_empty() || word.len() > 8 {
        return None;
    }
    let mut v = 0;
    for &b in word {
        let digit = char::from(b).to_digit(10)?;
        v = 10 * v + digit;
    }
    Some(v)
}

// The number of a word as a tool has it: an f32 that is in a tool's range exactly if the number is, and then the same. It is 0 for none, as by the rules' `word_number`: a tool of 0 is refused.
fn tool_number(word: &[u8]) -> f32
    ensures { ToolNumber (word_number word.now) result }
{
    match word_number(word) {
        Some(n) if n <= 80 => n as f32,
        _ => 0.0,
    }
}

// The tool of three words: one of the rules exactly if their numbers are one, and then the same.
pub fn words_tool(pitch: &[u8], depth: &[u8], clearance: &[u8]) -> Tool
    ensures { SameTool result (words_tool pitch.now depth.now clearance.now) }
{
    let p = tool_number(pitch);
    let d = tool_number(depth);
    let c = tool_number(clearance);
    Tool {
        pitch: p,
        depth: d,
        clearance: c,
    }
}
