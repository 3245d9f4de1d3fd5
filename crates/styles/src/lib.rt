// What the two drawings differ in, as the running program needs it: the code of what `rules` has in specs/Styles.
// A function for each number, as there is a definition for each: a table of both styles' numbers would be no plainer, since it would be got by such a match too, and its numbers proved one by one.
#![tactic(auto)]

ghost use Rattle.std.specs.Prelude.{◌≡◌, ◌<◌, ◌≤◌};
ghost use Rattle.rules.specs.Records as Records;
ghost use Rattle.rules.specs.Styles as Styles;

use rules::{Bend, DRAWING_MARK, LINE_NUMBERS, STRAIGHT_MARK, STRAIGHT_NUMBERS, Style};

// The x of point 2 as opened.
pub fn second_x(style: Style) -> u16
    ensures { result ≡ Styles.second_x style }
{
    match style {
        Style::OneBend => 6,
        Style::Straight => 2,
    }
}

// The x of point 3 as opened.
pub fn third_x(style: Style) -> u16
    ensures { result ≡ Styles.third_x style }
{
    match style {
        Style::OneBend => 3,
        Style::Straight => 1,
    }
}

// The y of point 3 as opened.
pub fn third_y(style: Style) -> u16
    ensures { result ≡ Styles.third_y style }
{
    match style {
        Style::OneBend => 2,
        Style::Straight => 1,
    }
}

// A count of ports, once a new line is there.
pub fn taken(style: Style, count: u16) -> u16
    requires { count < 65535 }
    ensures { result ≡ Styles.taken style count }
{
    match style {
        Style::OneBend => count + 1,
        Style::Straight => count,
    }
}

// Where a line bends, by where document 01 has its bend.
pub fn bent(style: Style, b: Bend) -> Bend
    ensures { result ≡ Styles.bent style b }
{
    match style {
        Style::OneBend => b,
        Style::Straight => Bend::NoBend,
    }
}

// The amount of step 1 or 2 at an end with so many ports.
pub fn amount(style: Style, count: u16) -> usize
    ensures value { result ≡ Styles.amount style count }
    ensures small { (0 < result) × (result ≤ 2) }
{
    match style {
        Style::OneBend => { if count == 0 { 2 } else { 1 } }
        Style::Straight => 1,
    }
}

// How far the new point lies inside the lines of slope 1 and -1 through the ends of its run.
pub fn inset(style: Style) -> usize
    ensures value { result ≡ Styles.inset style }
    ensures small { result ≤ 1 }
{
    match style {
        Style::OneBend => 1,
        Style::Straight => 0,
    }
}

// The mark of a drawing file.
pub fn drawing_mark(style: Style) -> u16
    ensures { result ≡ Styles.drawing_mark style }
{
    match style {
        Style::OneBend => DRAWING_MARK,
        Style::Straight => STRAIGHT_MARK,
    }
}

// How many numbers a line record has.
pub fn line_numbers(style: Style) -> usize
    ensures value { result ≡ Styles.line_numbers style }
    ensures small { result ≤ 5 }
{
    match style {
        Style::OneBend => LINE_NUMBERS,
        Style::Straight => STRAIGHT_NUMBERS,
    }
}

// How many bytes it has.
pub fn line_size(style: Style) -> usize
    ensures value { result ≡ Records.line_size style }
    ensures small { result ≤ 12 }
{
    2 + 2 * line_numbers(style)
}
