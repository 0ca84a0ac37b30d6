// A call: its length in bytes, and then numbers of two bytes, the low one first: seed length; limit, its low half and its
// high half; numbers lent of the entries; entries lent of keys, ranks and positions; the column with a wrong number, 1 to
// 3, or 0, and its place there; how often the read's last byte comes again behind it; lengths of identifier bytes,
// identifier ends, base bytes, base ends, marks and read. Then these six lists, an end as a number.
ghost use Rattle.std.specs.Prelude.{◌≤◌, length};

use crate::lent::{Call, run_call};
use catalogue::lent::LentCatalogue;
use std::io::Read;
use test_cases::reading::{case_end, number, part, read_full, room, whole_length, whole_read};
use test_cases::targets::{
    base_ends_in, bases_in, identifier_ends_in, identifiers_in, lists_at, marks_in,
};
use test_cases::writing::put;

// The call of a case's head.
fn call_of(s: &[u8], records: bool) -> Call
    requires { 32 ≤ length s.now }
{
    Call {
        records,
        q: number(s, 0),
        limit: (number(s, 2) + number(s, 4) * 65536) as u64,
        entries: number(s, 6),
        keys: number(s, 8),
        ranks: number(s, 10),
        positions: number(s, 12),
        column: number(s, 14),
        place: number(s, 16),
    }
}

fn run_case(rt: &impl Print, s: &[u8], records: bool) {
    if s.len() < 32 {
        return put(rt, b"short\n");
    }
    let lists = lists_at(s, 20, 32);
    let names = lists.names;
    let sequences = lists.sequences;
    let identifier_ends = identifier_ends_in(s, lists);
    let base_ends = base_ends_in(s, lists);
    let written = part(s, lists.marks, number(s, 30));
    let more = number(s, 18);
    let read = whole_read(written, more);
    let n = whole_length(written, more);
    run_call(
        rt,
        call_of(s, records),
        LentCatalogue {
            identifiers: identifiers_in(s, lists),
            identifier_ends: &identifier_ends[0..names],
            bases: bases_in(s, lists),
            base_ends: &base_ends[0..sequences],
            marks: marks_in(s, lists),
        },
        &read[0..n],
    );
}

fn run_cases(rt: &impl Print, s: &[u8], records: bool) {
    let mut at = 0;
    while at + 1 < s.len() {
        let end = case_end(s, at);
        run_case(rt, &s[at + 2..end], records);
        at = end;
    }
}

fn run_block<R: Read>(rt: &impl Print, input: &mut R, records: bool) {
    let mut block = room();
    let n = read_full(input, &mut block);
    run_cases(rt, &block[0..n], records);
}

// Runs the calls of an input, up to 16 blocks of bytes, with the index lent as columns or as records. No case goes
// over the end of a block.
pub fn run_blocks<R: Read>(rt: &impl Print, input: &mut R, records: bool) {
    for _ in 0..16 {
        run_block(rt, input, records);
    }
}
