// Runs both audits on the cases of standard input, and holds them to the answers of veritasm. `oracle/sample` wrote both.
#![tactic(auto)]

use test_audit_calls::case::run_blocks;

fn main(rt: HostRuntime) {
    let mut input = rt.stdin();
    run_blocks(&rt, &mut input);
}
