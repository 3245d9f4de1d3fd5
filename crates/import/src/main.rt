// The import program: a net in planar_code from standard input, its order file or the line of its refusal to standard output.
#![tactic(auto)]

fn main(rt: HostRuntime) {
    let outcome = files_import::import(&mut rt.stdin(), &mut rt.stdout());
    files::report(b"import", outcome, &mut rt.stderr());
}
