// Runs the cases of `test_map` with their index lent as records. What it writes is what `test_map` writes.
#![tactic(auto)]

use test_map_calls::case::run_blocks;

fn main(rt: HostRuntime) {
    let mut input = rt.stdin();
    run_blocks(&rt, &mut input, true);
}
