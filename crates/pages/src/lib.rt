// Bytes put one behind the other into a buffer that the caller lends, with the place where the next go. For all that writes a file or a page: the functions ask for room.
#![tactic(auto)]

// A page that is being filled: the next bytes go to the place `at`.
#[derive(Drop)]
pub struct Page<'a> {
    pub bytes: &'a mut [u8],
    pub at: usize,
}

impl<'a> Page<'a> {
    ghost use Rattle.std.specs.Prelude.{◌≡◌, ◌*◌, [], ◌∷◌, length};
    ghost use Rattle.rules.specs.Records.{bytes_of};
    ghost use Rattle.pages.specs.Pages.{HasRoom, Grown};

    // A page to be filled from its start.
    pub fn new(bytes: &'a mut [u8]) -> Page<'a>
        ensures same { result.bytes.ghost_name ≡ bytes.entry.ghost_name }
        ensures bytes { result.bytes.now ≡ bytes.old }
        ensures at { result.at ≡ 0 }
    {
        Page { bytes, at: 0 }
    }

    // Puts a text behind what stands there.
    pub fn text(&mut self, text: &[u8])
        requires { HasRoom self.old (length text.now) }
        ensures { Grown self.old text.now self.new }
    {
        let end = self.at + text.len();
        self.bytes[self.at..end].copy_from_slice(text);
        self.at = end;
    }

    // Puts the two bytes of a number there, the high byte first.
    pub fn word(&mut self, v: u16)
        requires { HasRoom self.old 2 }
        ensures { Grown self.old (bytes_of (v ∷ [])) self.new }
    {
        words::put_word(self.bytes, self.at, v);
        self.at += 2;
    }

    // Puts these numbers there, one behind the other.
    pub fn words(&mut self, ws: &[u16])
        requires { HasRoom self.old (2 * length ws.now) }
        ensures { Grown self.old (bytes_of ws.now) self.new }
    {
        for &w in ws {
            self.word(w);
        }
    }
}
