// The cutter moves of a drawing: given one at a time by number, all at once, and how many there are.
#![tactic(auto)]

ghost use Rattle.std.specs.Prelude.{◌≡◌, true, ◌≤◌, length};
ghost use Rattle.rules.specs.Refusals.{told};
ghost use Rattle.rules.specs.Points.{Drawing as Plan};
ghost use Rattle.rules.specs.Moves.{Tool as WholeTool, is_tool, all_moves, given_moves, move_at};
ghost use Rattle.store_laws.specs.Stored.{Is};
ghost use Rattle.answers.specs.Told.{told_count};
ghost use Rattle.tool.specs.Checking.{whole_tool, tool_of};
ghost use Rattle.drawing.specs.Places.{PlacedIn, IsPlaced};
ghost use Rattle.cutter_lists.specs.Listing.{PutsIn};
ghost use Rattle.cutter.specs.Finding.{Finds, RoomIn};
ghost use Rattle.cutter.specs.Setting.{Sets};
ghost use Rattle.cutter.specs.Seen.{MoveSeen, move_count};
ghost use Rattle.cutter.specs.Lists.{Lists, ListsIn};

use answers::NotListed;
use cutter_lines::Setting;
use cutter_lists::MoveLists;
use drawing::Placed;
use rules::{Answer, Refusal};
use store_links::Counts;
use store_settling::View;
use tool::{Move, Tool};

// The line that a move belongs to, and how many moves stand before that line's.
#[derive(Clone, Copy, Debug, PartialEq, Eq)]
struct Found {
    line: usize,
    before: usize,
}

// Looks for move `number`, from 0, line by line.
fn find(view: &View, number: usize) -> Option<Found>
    requires { PlacedIn view.now.drawing.now view.now.x.now }
    ensures { (q : Plan) (t : WholeTool) → Is q view.now.drawing.now → 1 ≤ t.pitch → Finds q t number result }
{
    let mut before = 0;
    for line in 0..view.drawing.counts.lines {
        let here = cutter_grooves::groove_of(view, line).move_total();
        if number < before + here {
            return Some(Found { line, before });
        }
        before += here;
    }
    None
}

// How many moves there are.
fn count_moves(view: &View) -> usize
    requires { PlacedIn view.now.drawing.now view.now.x.now }
    ensures { (q : Plan) (t : WholeTool) → Is q view.now.drawing.now → 1 ≤ t.pitch → result ≡ length (all_moves q t) }
{
    let mut count = 0;
    for line in 0..view.drawing.counts.lines {
        let here = cutter_grooves::groove_of(view, line).move_total();
        count += here;
    }
    count
}

// The setting of a finished drawing with this tool. Refusals in order: 12, 22.
fn setting(c: Counts, t: Tool) -> Answer<Setting>
    requires { (1 ≤ c.s) × (c.s ≤ 8) }
    ensures { Sets c t result }
{
    let tool = tool::check_tool(t).ok_or(Refusal::BadTool.at(0))?;
    store_looking::finished(c)?;
    Ok(Setting { scale: c.s, tool })
}

// Move `number`, from 0, of the moves with this tool. Refusals in order: 12, 22, 23.
// For `panel_c`, which is lent a drawing. It takes the time of one pass over the lines.
pub fn look_move(view: &View, t: Tool, number: usize) -> Answer<Move>
    requires { PlacedIn view.now.drawing.now view.now.x.now }
    ensures { (q : Plan) → Is q view.now.drawing.now → MoveSeen result (move_at q (whole_tool t) number) }
{
    let by = setting(view.drawing.counts, t)?;
    let found = find(view, number).ok_or(Refusal::NoSuch.at(0))?;
    let groove = cutter_grooves::groove_of(view, found.line);
    Ok(groove.move_at(number - found.before, by))
}

// The same of a drawing by value: x is settled beforehand, once for all moves.
pub fn move_at(v: Placed, t: Tool, number: usize) -> Answer<Move>
    requires { IsPlaced v }
    ensures { (q : Plan) → Is q v.drawing → MoveSeen result (move_at q (whole_tool t) number) }
{
    look_move(&v.view(), t, number)
}

// How many moves a finished drawing has, whatever the tool.
pub fn move_count(v: Placed) -> Answer<usize>
    requires { IsPlaced v }
    ensures { (q : Plan) (t : WholeTool) → Is q v.drawing → is_tool t ≡ true → told_count result ≡ told (move_count q t) }
{
    store_looking::finished(v.drawing.counts)?;
    Ok(count_moves(&v.view()))
}

// Puts all moves of the drawing into the buffers.
fn put_moves(view: &View, by: Setting, lists: &mut MoveLists) -> usize
    requires placed { PlacedIn view.now.drawing.now view.now.x.now }
    requires scaled { by.scale ≡ view.now.drawing.now.counts.s }
    requires room { RoomIn view.now.drawing.now by.tool (length lists.old.kinds.now) (length lists.old.numbers.now) }
    ensures { (q : Plan) → Is q view.now.drawing.now → PutsIn lists.old 0 (all_moves q (tool_of by.tool)) lists.new result }
{
    let mut count = 0;
    for line in 0..view.drawing.counts.lines {
        let groove = cutter_grooves::groove_of(view, line);
        count = lists.put_groove(count, groove, by);
    }
    count
}

// All moves with this tool in their order, written into the buffers. Refusals in order: 12, 22, then 24 for the kinds, then for the numbers.
// For `panel_c`, which is lent a drawing.
pub fn look_moves(view: &View, t: Tool, lists: &mut MoveLists) -> Result<usize, NotListed>
    requires { PlacedIn view.now.drawing.now view.now.x.now }
    ensures { (q : Plan) → Is q view.now.drawing.now → ListsIn (given_moves q (whole_tool t)) lists.old lists.new result }
{
    let by = setting(view.drawing.counts, t)?;
    let count = count_moves(view);
    if lists.kinds.len() < count {
        return Err(NotListed::KindsShort);
    }
    if lists.numbers.len() < 2 * count {
        return Err(NotListed::NumbersShort);
    }
    Ok(put_moves(view, by, lists))
}

// The same of a drawing by value: a kind and two numbers a move.
pub fn moves_into(
    v: Placed,
    t: Tool,
    kinds: &mut [u8],
    numbers: &mut [f32],
) -> Result<usize, NotListed>
    requires { IsPlaced v }
    ensures { (q : Plan) → Is q v.drawing → Lists (given_moves q (whole_tool t)) kinds.old numbers.old kinds.new numbers.new result }
{
    look_moves(&v.view(), t, &mut MoveLists { kinds, numbers })
}
