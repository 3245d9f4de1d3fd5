// What is printed of moves that were listed in two buffers: their lines, or the line of the refusal. For `printing_moves`: it asks for room.
#![tactic(auto)]

ghost use Rattle.std.specs.Prelude.{◌≡◌, List, ◌+◌, ◌*◌, ◌≤◌, length};
ghost use Rattle.rules.specs.Refusals.{Result as Wanted};
ghost use Rattle.rules.specs.Moves.{Move};
ghost use Rattle.printing_line.specs.Putting.{Printed, line_room};
ghost use Rattle.printing_move.specs.Lines.{move_most, move_room};
ghost use Rattle.printing_listed.specs.Finishing.{Within, Shown, lines_of};

use answers::NotListed;
use rules::Refused;

// The page begins with the lines of the moves, or with that of the refusal. Returns how many bytes that is.
// Two buffers and no MoveLists, as `printing_move::put_moves` says.
pub fn finish(
    listed: Result<usize, NotListed>,
    kinds: &[u8],
    numbers: &[f32],
    page: &mut [u8],
) -> usize
    requires { Within listed (length kinds.now) (length numbers.now) × (move_most * length kinds.now + move_room ≤ length page.old) × (line_room ≤ length page.old) }
    ensures { (wanted : Wanted (List Move)) → Shown wanted kinds.now numbers.now listed → Printed page.old (lines_of wanted) page.new result }
{
    match listed {
        Ok(count) => printing_move::put_moves(page, kinds, numbers, count),
        Err(why) => printing_line::put_refusal(page, Refused::from(why)),
    }
}
