// The tests of an adding call that need no new places, on the stored owners and links: 21, 5, then entry by entry 13, 6, 7, then 8, 9.
// For `store_adding` and, entry by entry, for `read_long`. Of the drawing they ask no more than k in range: a type for that alone would be no plainer.
#![tactic(auto)]

ghost use Rattle.std.specs.Prelude.{◌≡◌, [], ◌∷◌, ◌≤◌};
ghost use Rattle.rules.specs.Refusals.{answer};
ghost use Rattle.store_links.specs.Judging.{entries_pass, run_passes, passes};
ghost use Rattle.store_links.specs.Runs.{Within};
ghost use Rattle.store_tables.specs.Tables.{arrays_in};

use rules::{Answer, Reading, Refusal};
use store_tables::{Drawing, Table};
use words::{point_of, split};

// 13, 6 and 7 of entry i: it isn't marked both, its point is one of the k placed, and owned by nobody.
pub fn judge_entry(e: u16, d: &Drawing, i: usize) -> Answer<()>
    requires { d.now.counts.k ≤ 1024 }
    ensures { result ≡ answer (entries_pass (arrays_in d.now.table).owner d.now.counts.k i (e ∷ [])) }
{
    let Reading::Given(x) = split(e) else {
        return Err(Refusal::BothMarks.at(i));
    };
    let p = usize::from(x.point);
    if p == 0 {
        return Err(Refusal::NotPlaced.at(i));
    }
    if d.counts.k < p {
        return Err(Refusal::NotPlaced.at(i));
    }
    if d.table.point(p).owner != 0 {
        return Err(Refusal::Covered.at(i));
    }
    Ok(())
}

// 13, 6 and 7, entry by entry.
// By index: the place i goes into the refusal.
fn judge_entries(e: &[u16], d: &Drawing) -> Answer<()>
    requires { d.now.counts.k ≤ 1024 }
    ensures { result ≡ answer (entries_pass (arrays_in d.now.table).owner d.now.counts.k 0 e.now) }
{
    for i in 0..e.len() {
        judge_entry(e[i], d, i)?;
    }
    Ok(())
}

// 8: each entry's point is linked from the point of the entry before it.
fn judge_run(e: &[u16], table: &Table) -> Answer<()>
    requires { Within 1024 e.now }
    ensures { result ≡ answer (run_passes (arrays_in table.now).next e.now) }
{
    for i in 1..e.len() {
        let before = table.point(point_of(e[i - 1]));
        if point_of(e[i]) != usize::from(before.next) {
            return Err(Refusal::NoRun.at(i));
        }
    }
    Ok(())
}

// All of these tests; the first that fails is the answer.
pub fn judge(e: &[u16], d: &Drawing) -> Answer<()>
    requires { d.now.counts.k ≤ 1024 }
    ensures { result ≡ answer (passes (arrays_in d.now.table).owner (arrays_in d.now.table).next d.now.counts.n d.now.counts.k d.now.counts.m e.now) }
{
    let n = d.counts.n;
    let k = d.counts.k;
    let m = d.counts.m;
    if n <= k {
        return Err(Refusal::Finished.at(0));
    }
    if e.len() < 2 {
        return Err(Refusal::FewEntries.at(0));
    }
    judge_entries(e, d)?;
    judge_run(e, &d.table)?;
    if k + 1 == n && e.len() != m {
        return Err(Refusal::NotWhole.at(0));
    }
    Ok(())
}
