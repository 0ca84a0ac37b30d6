// Runs cases of calls of both audits that are written as bytes. A number has two bytes, the low one first.
// A case: its length in bytes; lengths of identifier bytes, identifier ends, base bytes, base ends and marks; these five
// lists, an end as a number; then commands, each its length and its bytes. Counters are zero at first, the columns hold
// the index that `build` gives at 15, and sevens behind it.
use crate::commands::run_command;
use catalogue::lent::LentCatalogue;
use index_calls::build;
use std::io::Read;
use test_audit_io::desk::{Desk, nothing_held};
use test_cases::reading::{case_end, read_full, room};
use test_cases::targets::{
    base_ends_in, bases_in, identifier_ends_in, identifiers_in, lists_at, marks_in,
};
use test_cases::writing::put;

// The commands of a case, one after the other.
fn run_commands(rt: &impl Print, start: Desk, catalogue: LentCatalogue<'_>, s: &[u8]) {
    let mut desk = start;
    let mut at = 0;
    while at + 1 < s.len() {
        let end = case_end(s, at);
        desk = run_command(rt, desk, catalogue, &s[at + 2..end]);
        at = end;
    }
}

fn run_targets(rt: &impl Print, catalogue: LentCatalogue<'_>, s: &[u8]) {
    let mut keys = [7u64; 256];
    let mut ranks = [7u64; 256];
    let mut positions = [7u64; 256];
    let _ = build(&mut keys, &mut ranks, &mut positions, catalogue, 15);
    let desk = Desk {
        placements: [0; 16],
        singles: [0; 16],
        multi: [0; 16],
        keys,
        ranks,
        positions,
        held: nothing_held(),
    };
    run_commands(rt, desk, catalogue, s);
}

fn run_case(rt: &impl Print, s: &[u8]) {
    if s.len() < 10 {
        return put(rt, b"short\n");
    }
    let lists = lists_at(s, 0, 10);
    let names = lists.names;
    let sequences = lists.sequences;
    let commands = lists.marks;
    let identifier_ends = identifier_ends_in(s, lists);
    let base_ends = base_ends_in(s, lists);
    run_targets(
        rt,
        LentCatalogue {
            identifiers: identifiers_in(s, lists),
            identifier_ends: &identifier_ends[0..names],
            bases: bases_in(s, lists),
            base_ends: &base_ends[0..sequences],
            marks: marks_in(s, lists),
        },
        &s[commands..],
    );
}

fn run_cases(rt: &impl Print, s: &[u8]) {
    let mut at = 0;
    while at + 1 < s.len() {
        let end = case_end(s, at);
        run_case(rt, &s[at + 2..end]);
        at = end;
    }
}

fn run_block<R: Read>(rt: &impl Print, input: &mut R) {
    let mut block = room();
    let n = read_full(input, &mut block);
    run_cases(rt, &block[0..n]);
}

// Runs the cases of an input, up to 16 blocks of bytes. No case goes over the end of a block.
pub fn run_blocks<R: Read>(rt: &impl Print, input: &mut R) {
    for _ in 0..16 {
        run_block(rt, input);
    }
}
