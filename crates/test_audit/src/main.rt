// Runs both audits on the cases of standard input. cases.py writes them, and what is expected of them.
#![tactic(auto)]

use test_audit_calls::case::run_blocks;

fn main(rt: HostRuntime) {
    let mut input = rt.stdin();
    run_blocks(&rt, &mut input);
}
