// Records of both files, for the writers: they ask for room in the page, which is tested above.
#![tactic(auto)]

ghost use Rattle.std.specs.Prelude.{[], ◌∷◌, ◌<◌};
ghost use Rattle.rules.specs.Records.{bytes_of, end_mark};
ghost use Rattle.pages.specs.Pages.{HasRoom, Grown};

use pages::Page;
use rules::END_MARK;

// A mark and a number behind it, of an order file.
pub fn put_two(page: &mut Page<'_>, mark: u16, v: usize)
    requires { (v < 65536) × HasRoom page.old 4 }
    ensures { Grown page.old (bytes_of (mark ∷ v ∷ [])) page.new }
{
    page.words(&[mark, v as u16]);
}

// The end record, of both.
pub fn put_end(page: &mut Page<'_>)
    requires { HasRoom page.old 2 }
    ensures { Grown page.old (bytes_of (end_mark ∷ [])) page.new }
{
    page.word(END_MARK);
}
