// Moves written into two lent buffers: a kind and two f32 a move. For `cutter`: the functions ask for room, which is tested there.
#![tactic(auto)]

use cutter_lines::{Groove, Setting};
use tool::Move;

// Two buffers that the caller lends for moves. They are two, and not one of pairs, since C hands them in so.
#[derive(Drop)]
pub struct MoveLists<'a> {
    pub kinds: &'a mut [u8],
    pub numbers: &'a mut [f32],
}

impl MoveLists<'_> {
    ghost use Rattle.std.specs.Prelude.{◌+◌, ◌*◌, ◌≤◌, ◌<◌, length};
    ghost use Rattle.tool.specs.Checking.{tool_of};
    ghost use Rattle.cutter_lines.specs.Grooves.{total, groove_moves, GrooveOnGrid};
    ghost use Rattle.cutter_lists.specs.Listing.{PutsMove, PutsIn};

    // Puts move i there.
    fn put_move(&mut self, i: usize, m: Move)
        requires a_kind { i < length self.old.kinds.now }
        requires two_numbers { 2 * i + 2 ≤ length self.old.numbers.now }
        ensures { PutsMove self.old i m self.new }
    {
        self.kinds[i] = m.kind();
        // In two stores: copy_from_slice reads the pair back as one word, which waits for both halves, and all moves take a quarter more time.
        let pair = m.numbers();
        self.numbers[2 * i] = pair[0];
        self.numbers[2 * i + 1] = pair[1];
    }

    // Puts all moves of a line there, the first as move `from`. Returns the number of the move behind them.
    pub fn put_groove(&mut self, from: usize, g: Groove, by: Setting) -> usize
        requires on_grid { GrooveOnGrid g }
        requires all_kinds { from + total g ≤ length self.old.kinds.now }
        requires all_numbers { 2 * (from + total g) ≤ length self.old.numbers.now }
        ensures { PutsIn self.old from (groove_moves by.scale (tool_of by.tool) g) self.new result }
    {
        let total = g.move_total();
        for j in 0..total {
            self.put_move(from + j, g.move_at(j, by));
        }
        from + total
    }
}
