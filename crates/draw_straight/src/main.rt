// The straight drawing program: an order file from standard input, its straight drawing file or the line of its refusal to standard output.
#![tactic(auto)]

use rules::Style;

fn main(rt: HostRuntime) {
    let outcome = files::draw(Style::Straight, &mut rt.stdin(), &mut rt.stdout());
    files::report(b"draw_straight", outcome, &mut rt.stderr());
}
