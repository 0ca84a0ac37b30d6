// Runs plan, build and the test of an index on the cases of standard input, and writes what they answer.
// A case there: its length in bytes, a letter, and what the letter asks for; a number has two bytes, the low one first
// (cases.py writes the cases, and what is expected of them).
// 'C': seed length; entries lent of keys, ranks and positions; lengths of identifier bytes, identifier ends, base
// bytes, base ends and marks; then these five lists, an end as a number.
// 'N', planned only: seed length, number of targets, number of distinct names, number of closed walks. Each target has
// one base, its name is a number, from 0 on by place, and behind the distinct ones from 0 on again.
#![tactic(auto)]

ghost use Rattle.std.specs.Prelude.{◌≤◌, length};

use catalogue::lent::LentCatalogue;
use index_calls::build;
use index_columns::LentIndex;
use index_plan::{Counts, plan};
use numbered::run_numbered;
use promises::refusal::Refusal;
use test_cases::reading::{at_most, case_end, number, read_full};
use test_cases::targets::{
    base_ends_in, bases_in, identifier_ends_in, identifiers_in, lists_at, marks_in,
};
use test_cases::writing::{put, put_line, put_numbers};
use tests::run_tests;

mod numbered;
mod tests;

// How many entries of each column are lent.
#[derive(Clone, Copy)]
struct Room {
    keys: usize,
    ranks: usize,
    positions: usize,
}

fn put_plan(rt: &impl Print, p: Result<Counts, Refusal>) {
    match p {
        Err(refusal) => put_line(rt, b"plan refused ", refusal.number()),
        Ok(k) => {
            let numbers = [k.targets as u64, k.postings as u64];
            put_numbers(rt, b"plan", &numbers);
        }
    }
}

fn put_built(rt: &impl Print, b: Result<usize, Refusal>) {
    match b {
        Err(refusal) => put_line(rt, b"build refused ", refusal.number()),
        Ok(n) => put_line(rt, b"build ", n as u64),
    }
}

fn put_columns(rt: &impl Print, index: LentIndex<'_>, room: Room) {
    let k = at_most(room.keys, index.keys.len());
    let r = at_most(room.ranks, index.ranks.len());
    let p = at_most(room.positions, index.positions.len());
    put_numbers(rt, b"keys", &index.keys[0..k]);
    put_numbers(rt, b"ranks", &index.ranks[0..r]);
    put_numbers(rt, b"positions", &index.positions[0..p]);
}

fn run_build(
    keys: &mut [u64],
    ranks: &mut [u64],
    positions: &mut [u64],
    room: Room,
    catalogue: LentCatalogue<'_>,
    q: usize,
) -> Result<usize, Refusal> {
    let k = at_most(room.keys, keys.len());
    let r = at_most(room.ranks, ranks.len());
    let p = at_most(room.positions, positions.len());
    build(
        &mut keys[..k],
        &mut ranks[..r],
        &mut positions[..p],
        catalogue,
        q,
    )
}

// Plans, builds into columns of sevens, and tests what is left in them.
fn run_calls(rt: &impl Print, room: Room, catalogue: LentCatalogue<'_>, q: usize) {
    let planned = plan(catalogue, q);
    put_plan(rt, planned);
    let mut keys = [7u64; 64];
    let mut ranks = [7u64; 64];
    let mut positions = [7u64; 64];
    let built = run_build(&mut keys, &mut ranks, &mut positions, room, catalogue, q);
    put_built(rt, built);
    put_columns(
        rt,
        LentIndex {
            keys: &keys,
            ranks: &ranks,
            positions: &positions,
        },
        room,
    );
    run_tests(rt, built, keys, ranks, positions, room, catalogue, q);
}

// The entries lent, of a case's head.
fn lent(s: &[u8]) -> Room
    requires { 19 ≤ length s.now }
{
    Room {
        keys: number(s, 3),
        ranks: number(s, 5),
        positions: number(s, 7),
    }
}

// A catalogue behind its lengths.
fn run_catalogue(rt: &impl Print, s: &[u8]) {
    if s.len() < 19 {
        return put(rt, b"short\n");
    }
    let lists = lists_at(s, 9, 19);
    let names = lists.names;
    let sequences = lists.sequences;
    let identifier_ends = identifier_ends_in(s, lists);
    let base_ends = base_ends_in(s, lists);
    run_calls(
        rt,
        lent(s),
        LentCatalogue {
            identifiers: identifiers_in(s, lists),
            identifier_ends: &identifier_ends[0..names],
            bases: bases_in(s, lists),
            base_ends: &base_ends[0..sequences],
            marks: marks_in(s, lists),
        },
        number(s, 1),
    );
}

fn run_case(rt: &impl Print, s: &[u8]) {
    if s.is_empty() {
        return put(rt, b"short\n");
    }
    if s[0] == b'N' {
        return run_numbered(rt, s);
    }
    run_catalogue(rt, s);
}

fn run_cases(rt: &impl Print, s: &[u8]) {
    let mut at = 0;
    while at + 1 < s.len() {
        let end = case_end(s, at);
        run_case(rt, &s[at + 2..end]);
        at = end;
    }
}

fn main(rt: HostRuntime) {
    let mut buffer = [0u8; 65536];
    let mut input = rt.stdin();
    let n = read_full(&mut input, &mut buffer);
    run_cases(&rt, &buffer[0..n]);
}
