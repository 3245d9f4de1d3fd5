// Decimal numbers and the line of a refusal, put into a page. For `printing`, `printing_move` and `printing_import`: the functions ask for room, each for its own.
// By hand, since what is printed is proved byte for byte: `write!` says which bytes it writes only to a String, and the project has no heap.
#![tactic(auto)]

ghost use Rattle.std.specs.Prelude.{◌≡◌, ◌+◌, ◌≤◌, length};
ghost use Rattle.rules.specs.Refusals.{number};
ghost use Rattle.rules.specs.Decimal.{digits};
ghost use Rattle.rules.specs.Output.{refusal_line};
ghost use Rattle.pages.specs.Pages.{HasRoom, Grown};
ghost use Rattle.printing_line.specs.Putting.{Printed, most_digits, line_room};

use pages::Page;
use rules::Refused;

// Puts the decimal digits of a number behind what stands in the page, at most 20 of them.
pub fn put_decimal(page: &mut Page<'_>, number: u64)
    requires { HasRoom page.old most_digits }
    ensures exact { Grown page.old (digits number) page.new }
    ensures within { page.new.at ≤ page.old.at + most_digits }
{
    let mut text = [0u8; 20];
    let count = io::decimal(number, &mut text);
    page.text(&text[..count]);
}

// Puts the line `refused N at P` there.
fn put_line(page: &mut Page<'_>, refused: Refused)
    requires { HasRoom page.old line_room }
    ensures { Grown page.old (refusal_line (number refused.refusal) refused.place) page.new }
{
    let number = u64::from(u16::from(refused.refusal));
    page.text(b"refused ");
    put_decimal(page, number);
    page.text(b" at ");
    put_decimal(page, refused.place as u64);
    page.text(b"\n");
}

// Begins the page with the line `refused N at P`. Returns its length.
pub fn put_refusal(page: &mut [u8], refused: Refused) -> usize
    requires { line_room ≤ length page.old }
    ensures { Printed page.old (refusal_line (number refused.refusal) refused.place) page.new result }
{
    let mut line = Page::new(page);
    put_line(&mut line, refused);
    line.at
}
