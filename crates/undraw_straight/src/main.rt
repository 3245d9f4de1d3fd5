// The straight reading program: a straight drawing file from standard input, its order file or the line of its refusal to standard output.
#![tactic(auto)]

use rules::Style;

fn main(rt: HostRuntime) {
    let outcome = files::undraw(Style::Straight, &mut rt.stdin(), &mut rt.stdout());
    files::report(b"undraw_straight", outcome, &mut rt.stderr());
}
