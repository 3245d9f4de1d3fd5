// The program for the vertices: a net in planar_code from standard input; the file's vertex of each point, from point 1 on, one a line, or the line of the refusal to standard output.
#![tactic(auto)]

fn main(rt: HostRuntime) {
    let outcome = files_import::import_vertices(&mut rt.stdin(), &mut rt.stdout());
    files::report(b"import_vertices", outcome, &mut rt.stderr());
}
