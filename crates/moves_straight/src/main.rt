// The moves program of straight drawings.
#![tactic(auto)]

use rules::Style;

fn main(rt: HostRuntime) {
    let outcome = files_moves::moves(Style::Straight, &mut rt.stdin(), &mut rt.stdout(), &rt);
    files::report(b"moves_straight", outcome, &mut rt.stderr());
}
