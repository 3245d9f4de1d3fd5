// The reading program: a drawing file from standard input, its order file or the line of its refusal to standard output.
#![tactic(auto)]

use rules::Style;

fn main(rt: HostRuntime) {
    let outcome = files::undraw(Style::OneBend, &mut rt.stdin(), &mut rt.stdout());
    files::report(b"undraw", outcome, &mut rt.stderr());
}
