// All tests of a drawing file before the groups of points 4 to n: 1, 2, 3 on the header, 1 and 2 on all other records, 10, then 4.
#![tactic(auto)]

ghost use Rattle.std.specs.Prelude.{◌≡◌, ◌+◌, ◌*◌, ◌≤◌, length};
ghost use Rattle.rules.specs.Refusals.{answer};
ghost use Rattle.rules.specs.Records.{head_size, line_size};
ghost use Rattle.read_groups.specs.Lines.{lines_at};
ghost use Rattle.read_judging.specs.Files.{head_tests, body_tests, file_tests};
ghost use Rattle.read_judging.specs.Starting.{start_tests};

use read_groups::{LATER_AT, line_joins};
use read_records::{Cursor, lies};
use rules::{
    Answer, DRAWING_NUMBERS, DRAWING_SIZE, FEWEST_POINTS, LINE_MARK, MOST_POINTS, PLACE_MARK,
    PLACE_NUMBERS, PLACE_SIZE, Refusal, Style,
};
use styles::{drawing_mark, line_numbers, line_size};
use words::word_at;

// Where the header has n and s.
pub const N_AT: usize = 2;

pub const S_AT: usize = 4;

// 1, 2, 3 on the header: n from 3 to 1,024, s from 1 to 8.
fn judge_head(f: &[u8], style: Style) -> Answer<()>
    ensures { result ≡ answer (head_tests style f.now) }
{
    let head = Cursor { file: f, at: 0 };
    head.records(drawing_mark(style), DRAWING_NUMBERS, 1)?;
    if !lies(word_at(f, N_AT), FEWEST_POINTS, MOST_POINTS) {
        return Err(Refusal::OutOfRange.at(0));
    }
    if !lies(word_at(f, S_AT), 1, 8) {
        return Err(Refusal::OutOfRange.at(0));
    }
    Ok(())
}

// 1 and 2 on the n points, the 3n - 6 lines and the end, then 10.
fn judge_body(f: &[u8], style: Style, n: usize) -> Answer<()>
    requires { (head_size ≤ length f.now) × (n ≤ 1024) × (3 ≤ n) }
    ensures { result ≡ answer (body_tests style f.now n) }
{
    let points = Cursor {
        file: f,
        at: DRAWING_SIZE,
    };
    points.records(PLACE_MARK, PLACE_NUMBERS, n)?;
    let lines = points.moved_to(DRAWING_SIZE + PLACE_SIZE * n);
    let count = 3 * n - 6;
    lines.records(LINE_MARK, line_numbers(style), count)?;
    let end = lines.moved_to(lines.at + line_size(style) * count);
    end.end()
}

// 4 on the `left` lines at the cursor: point 1 has none, point 2 has 2-1, point 3 has 3-1 and 3-2.
fn judge_start(lines: &Cursor, style: Style, left: usize) -> Answer<()>
    requires { (3 ≤ left) × (lines.now.at + line_size style * left ≤ length lines.now.file.now) }
    ensures { result ≡ answer (start_tests style (lines.now.at + line_size style * left) (lines_at style lines.now.file.now left lines.now.at)) }
{
    let size = line_size(style);
    let second = lines.moved_to(lines.at + size);
    let third = lines.moved_to(second.at + size);
    let fourth = third.at + size;
    if !line_joins(lines, style, 2, 1) {
        return Err(Refusal::OtherStart.at(lines.at));
    }
    if word_at(lines.file, second.at + LATER_AT) == 2 {
        return Err(Refusal::OtherStart.at(lines.at));
    }
    if !line_joins(&second, style, 3, 1) {
        return Err(Refusal::OtherStart.at(second.at));
    }
    if !line_joins(&third, style, 3, 2) {
        return Err(Refusal::OtherStart.at(second.at));
    }
    if left == 3 {
        return Ok(());
    }
    if word_at(lines.file, fourth + LATER_AT) == 3 {
        return Err(Refusal::OtherStart.at(second.at));
    }
    Ok(())
}

// All tests before the groups of points 4 to n: 1, 2, 3 on the header, 1 and 2 on all other records, 10, then 4.
pub fn judge_file(f: &[u8], style: Style) -> Answer<()>
    ensures { result ≡ answer (file_tests style f.now) }
{
    judge_head(f, style)?;
    let n = usize::from(word_at(f, N_AT));
    judge_body(f, style, n)?;
    let lines = Cursor {
        file: f,
        at: DRAWING_SIZE + PLACE_SIZE * n,
    };
    judge_start(&lines, style, 3 * n - 6)
}
