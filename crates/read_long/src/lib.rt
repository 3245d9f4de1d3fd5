// A record of an order file with more entries than a boundary has points, judged where it stands in the file.
// For `read_orders`: it asks for a stored drawing, and for a record that is there.
#![tactic(auto)]

ghost use Rattle.read_long.specs.Long.{Long, LongRead};

use read_records::Cursor;
use rules::Refusal;
use store_judging::judge_entry;
use store_tables::Drawing;
use words::word_at;

// Its refusal, for `count` entries from the cursor on: 21, then entry by entry 13, 6, 7, then 8.
pub fn judge_long(entries: &Cursor, count: usize, d: &Drawing) -> Refusal
    requires { Long entries.now.file.now entries.now.at count d.now }
    ensures { LongRead entries.now.file.now entries.now.at count d.now result }
{
    if d.counts.n <= d.counts.k {
        return Refusal::Finished;
    }
    for i in 0..count {
        let e = word_at(entries.file, entries.at + 2 * i);
        if let Err(refused) = judge_entry(e, d, i) {
            return refused.refusal;
        }
    }
    Refusal::NoRun
}
