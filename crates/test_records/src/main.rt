// Runs the two forms on the catalogue of one target ACGTACGT with seeds of three bases, whose index is
// (6,0,0) (6,0,4) (27,0,1) (27,0,5) (44,0,2) (49,0,3).
#![tactic(auto)]

ghost use Rattle.std.specs.Prelude.{◌≡◌, length};

use catalogue::lent::LentCatalogue;
use index_calls::build;
use index_columns::LentIndex;
use index_model::ranked::RankedTargets;
use map_by_index::work::MappingWork;
use map_candidates::cursor::OrientationCursor;
use map_cursor::{Step, advanced};
use record_array::map_array;
use record_copy::SeedPosting;
use test_cases::reading::at_most;
use test_cases::writing::{put, put_number, put_numbers};
use test_map_calls::answered::put_answer;
use test_map_calls::records::records_of;

fn put_step(rt: &impl Print, step: Step) {
    let candidate = step.candidate;
    let cursor = step.cursor;
    let work = step.work;
    if candidate.found {
        put_number(rt, b"found ", candidate.rank as u64);
        put_number(rt, b" ", candidate.start as u64);
    } else {
        put(rt, b"none");
    }
    put_number(rt, b", cursor ", cursor.strand);
    put_number(rt, b" ", cursor.offset as u64);
    put_number(rt, b" ", cursor.next as u64);
    put_number(rt, b" ", cursor.end as u64);
    let counts = [
        work.lookups,
        work.hits,
        work.examined,
        work.comparisons,
        work.seen,
    ];
    put_numbers(rt, b", work", &counts);
}

// Moves a cursor on for a read of n bases, with a seed at an offset and a count of postings examined before.
fn run_cursor(rt: &impl Print, next: usize, end: usize, offset: usize, n: usize, examined: u64) {
    if 6 < end {
        return put(rt, b"long\n");
    }
    if end < next {
        return put(rt, b"short\n");
    }
    let bases = [65u8, 67, 71, 84, 65, 67, 71, 84];
    let ends = [8usize];
    let ranked = [0usize];
    let ranks = [0u64, 0, 0, 0, 0, 0];
    let positions = [0u64, 4, 1, 5, 2, 3];
    let cursor = OrientationCursor {
        strand: 1,
        offset,
        next,
        end,
    };
    let work = MappingWork {
        lookups: 11,
        hits: 12,
        examined,
        comparisons: 13,
        seen: 14,
    };
    let step = advanced(
        cursor,
        work,
        RankedTargets {
            bases: &bases,
            ends: &ends,
            ranked: &ranked,
        },
        &ranks,
        &positions,
        n,
    );
    put_step(rt, step);
}

// The index as records.
fn index() -> [SeedPosting; 256]
    ensures { 256 ≡ length result }
{
    let identifier_ends = [1usize];
    let base_ends = [8usize];
    let mut ks = [0u64; 6];
    let mut rs = [0u64; 6];
    let mut os = [0u64; 6];
    let _ = build(
        &mut ks,
        &mut rs,
        &mut os,
        LentCatalogue {
            identifiers: b"t",
            identifier_ends: &identifier_ends,
            bases: b"ACGTACGT",
            base_ends: &base_ends,
            marks: b"\0",
        },
        3,
    );
    records_of(LentIndex {
        keys: &ks,
        ranks: &rs,
        positions: &os,
    })
}

fn put_columns(rt: &impl Print, index: LentIndex<'_>) {
    put_numbers(rt, b"keys", index.keys);
    put_numbers(rt, b"ranks", index.ranks);
    put_numbers(rt, b"positions", index.positions);
}

// Maps a read with the first n records of the index, and writes the answer and what is left in the buffers.
fn run_lent(
    rt: &impl Print,
    entries: &mut [u64],
    keys: &mut [u64],
    ranks: &mut [u64],
    positions: &mut [u64],
    q: usize,
    n: usize,
    read: &[u8],
) {
    let identifier_ends = [1usize];
    let base_ends = [8usize];
    let answer = map_array(
        entries,
        keys,
        ranks,
        positions,
        index(),
        at_most(n, 256),
        LentCatalogue {
            identifiers: b"t",
            identifier_ends: &identifier_ends,
            bases: b"ACGTACGT",
            base_ends: &base_ends,
            marks: b"\0",
        },
        q,
        read,
        10,
    );
    put_answer(rt, answer, entries);
    put_columns(
        rt,
        LentIndex {
            keys,
            ranks,
            positions,
        },
    );
}

// Lends columns of these lengths that hold sevens.
fn run_records(
    rt: &impl Print,
    q: usize,
    n: usize,
    keys: usize,
    ranks: usize,
    positions: usize,
    read: &[u8],
) {
    let mut entries = [999u64; 20];
    let mut ks = [7u64; 8];
    let mut rs = [7u64; 8];
    let mut os = [7u64; 8];
    let k = at_most(keys, 8);
    let r = at_most(ranks, 8);
    let o = at_most(positions, 8);
    run_lent(
        rt,
        &mut entries,
        &mut ks[0..k],
        &mut rs[0..r],
        &mut os[0..o],
        q,
        n,
        read,
    );
}

// A cursor over the postings of one key, over those of two, and with a count that is full.
fn run_cursors(rt: &impl Print) {
    run_cursor(rt, 0, 2, 0, 3, 0);
    run_cursor(rt, 1, 2, 0, 3, 1);
    run_cursor(rt, 2, 2, 0, 3, 2);
    run_cursor(rt, 1, 2, 0, 5, 1);
    run_cursor(rt, 0, 6, 4, 8, 20);
    run_cursor(rt, 2, 6, 5, 8, 20);
    run_cursor(rt, 0, 6, 0, 9, 18446744073709551613);
    run_cursor(rt, 0, 6, 0, 9, 18446744073709551609);
}

// With room, with just room, without, and refused before and behind it.
fn run_entries(rt: &impl Print) {
    run_records(rt, 3, 6, 8, 8, 8, b"ACG");
    run_records(rt, 3, 6, 6, 7, 8, b"ACG");
    run_records(rt, 3, 6, 5, 8, 8, b"ACG");
    run_records(rt, 3, 6, 8, 5, 8, b"ACG");
    run_records(rt, 3, 6, 8, 8, 5, b"ACG");
    run_records(rt, 0, 6, 5, 5, 5, b"ACG");
    run_records(rt, 3, 5, 8, 8, 8, b"ACG");
    run_records(rt, 3, 7, 8, 8, 8, b"ACG");
    run_records(rt, 2, 6, 8, 8, 8, b"ACG");
    run_records(rt, 3, 6, 8, 8, 8, b"ACN");
    run_records(rt, 3, 6, 8, 8, 8, b"AAA");
}

fn main(rt: HostRuntime) {
    run_cursors(&rt);
    run_entries(&rt);
}
