// The drawing program: an order file from standard input, its drawing file or the line of its refusal to standard output.
#![tactic(auto)]

use rules::Style;

fn main(rt: HostRuntime) {
    let outcome = files::draw(Style::OneBend, &mut rt.stdin(), &mut rt.stdout());
    files::report(b"draw", outcome, &mut rt.stderr());
}
