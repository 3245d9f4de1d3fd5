// The moves program: an order file from standard input and the tool's pitch, depth and clearance, in eighths of a millimetre, from its arguments; the cutter's moves in millimetres, one a line, or the line of the refusal to standard output.
#![tactic(auto)]

use rules::Style;

fn main(rt: HostRuntime) {
    let outcome = files_moves::moves(Style::OneBend, &mut rt.stdin(), &mut rt.stdout(), &rt);
    files::report(b"moves", outcome, &mut rt.stderr());
}
