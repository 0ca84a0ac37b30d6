// Runs `map` on the cases of standard input, and holds it to the answers of veritasm. `oracle/sample` wrote both.
#![tactic(auto)]

use test_map_calls::case::run_blocks;

fn main(rt: HostRuntime) {
    let mut input = rt.stdin();
    run_blocks(&rt, &mut input, false);
}
