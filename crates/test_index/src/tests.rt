// Tests of an index: as it was built, and with something wrong.
ghost use Rattle.std.specs.Prelude.{◌≡◌, ◌≤◌, length};

use crate::Room;
use catalogue::lent::LentCatalogue;
use index_calls::check_index;
use index_columns::LentIndex;
use promises::refusal::{Refusal, number_of};
use test_cases::reading::at_most;
use test_cases::writing::{put, put_line};

// The tests: of the entries lent; of the postings built; of these with one key, one rank or one position raised, with
// the first and the last exchanged, with the last left out of all columns, or of one.
fn put_test(rt: &impl Print, k: usize) {
    match k {
        0 => put(rt, b"lent"),
        1 => put(rt, b"built"),
        2 => put(rt, b"key"),
        3 => put(rt, b"rank"),
        4 => put(rt, b"position"),
        5 => put(rt, b"exchanged"),
        6 => put(rt, b"fewer"),
        7 => put(rt, b"fewer keys"),
        8 => put(rt, b"fewer ranks"),
        _ => put(rt, b"fewer positions"),
    }
}

// Of a refused call what is lent is tested, and where nothing is built nothing can be changed.
fn tests(b: Result<usize, Refusal>) -> usize {
    match b {
        Err(_) => 1,
        Ok(n) => if n < 1 { 2 } else { 10 },
    }
}

fn one_less(n: usize) -> usize {
    n.saturating_sub(1)
}

// A column with the entry at a place raised by one.
fn raised(column: [u64; 64], i: usize) -> [u64; 64]
    ensures { 64 ≡ length result }
{
    let mut c = column;
    if i < 64 {
        c[i] = std::num::wrapping_add_u64(column[i], 1);
    }
    c
}

// A column with its first entry and the one at a place exchanged.
fn exchanged(column: [u64; 64], i: usize) -> [u64; 64]
    ensures { 64 ≡ length result }
{
    let mut c = column;
    if i < 64 {
        c[0] = column[i];
        c[i] = column[0];
    }
    c
}

// A column as test k has it, if its own test raises the entry at a place.
fn varied(column: [u64; 64], k: usize, own: usize, i: usize, last: usize) -> [u64; 64]
    ensures { 64 ≡ length result }
{
    if k == own {
        return raised(column, i);
    }
    if k == 5 {
        return exchanged(column, last);
    }
    column
}

// How many entries of a column test k has, if its own test leaves one out.
fn entries(lent: usize, k: usize, own: usize, n: usize) -> usize
    ensures { result ≤ 64 }
{
    if k == 0 {
        return at_most(lent, 64);
    }
    if k == 6 || k == own {
        return at_most(one_less(n), 64);
    }
    at_most(n, 64)
}

// Test k of n postings.
fn run_test(
    rt: &impl Print,
    k: usize,
    n: usize,
    keys: [u64; 64],
    ranks: [u64; 64],
    positions: [u64; 64],
    room: Room,
    catalogue: LentCatalogue<'_>,
    q: usize,
) {
    let last = one_less(n);
    let ks = varied(keys, k, 2, 0, last);
    let rs = varied(ranks, k, 3, n / 2, last);
    let ps = varied(positions, k, 4, last, last);
    let a = entries(room.keys, k, 7, n);
    let b = entries(room.ranks, k, 8, n);
    let c = entries(room.positions, k, 9, n);
    put_test(rt, k);
    let answer = check_index(
        LentIndex {
            keys: &ks[0..a],
            ranks: &rs[0..b],
            positions: &ps[0..c],
        },
        catalogue,
        q,
    );
    put_line(rt, b" ", number_of(answer));
}

pub fn run_tests(
    rt: &impl Print,
    built: Result<usize, Refusal>,
    keys: [u64; 64],
    ranks: [u64; 64],
    positions: [u64; 64],
    room: Room,
    catalogue: LentCatalogue<'_>,
    q: usize,
) {
    let n = built.unwrap_or(0);
    for k in 0..tests(built) {
        run_test(rt, k, n, keys, ranks, positions, room, catalogue, q);
    }
}
