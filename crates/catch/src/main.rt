// Reads a job from standard input, and writes its lines to standard output.
#![tactic(auto)]

use catch_stream::run_stream;

fn main(rt: HostRuntime) {
    let mut input = rt.stdin();
    let mut output = rt.stdout();
    run_stream(&mut input, &mut output, 32768);
}
