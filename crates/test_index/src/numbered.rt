// Plans for targets of one base each.
ghost use Rattle.std.specs.Prelude.{◌≡◌, ◌≤◌, length};

use crate::put_plan;
use catalogue::lent::LentCatalogue;
use index_plan::plan;
use test_cases::reading::{at_most, number};
use test_cases::writing::put;

// The low and the high byte of a number.
fn byte(n: usize, high: bool) -> u8 {
    if high {
        return ((n / 256) % 256) as u8;
    }
    (n % 256) as u8
}

fn place_of(i: usize, distinct: usize) -> usize {
    if i < distinct { i } else { i - distinct }
}

// Names by number, two bytes each, from 0 on again behind the distinct ones.
fn numbered_names(n: usize, distinct: usize) -> [u8; 8400]
    requires { n ≤ 4200 }
    ensures { 8400 ≡ length result }
{
    let mut names = [0u8; 8400];
    for i in 0..n {
        let name = place_of(i, distinct);
        names[i * 2] = byte(name, false);
        names[i * 2 + 1] = byte(name, true);
    }
    names
}

// The ends of n parts with as many bytes each.
fn numbered_ends(n: usize, each: usize) -> [usize; 4200]
    requires { (n ≤ 4200) × (each ≤ 2) }
    ensures { 4200 ≡ length result }
{
    let mut ends = [0usize; 4200];
    let mut end = 0;
    for i in 0..n {
        end += each;
        ends[i] = end;
    }
    ends
}

// A byte n times, and another behind it.
fn repeated(n: usize, b: u8, other: u8) -> [u8; 4200]
    requires { n ≤ 4200 }
    ensures { 4200 ≡ length result }
{
    let mut bytes = [other; 4200];
    bytes[..n].fill(b);
    bytes
}

// Plans for n targets of one base.
fn plan_numbered(rt: &impl Print, q: usize, n: usize, distinct: usize, closed: usize)
    requires { n ≤ 4200 }
{
    let names = numbered_names(n, distinct);
    let name_ends = numbered_ends(n, 2);
    let bases = repeated(n, b'G', 0);
    let base_ends = numbered_ends(n, 1);
    let marks = repeated(at_most(closed, n), 1, 0);
    let planned = plan(
        LentCatalogue {
            identifiers: &names[0..n * 2],
            identifier_ends: &name_ends[0..n],
            bases: &bases[0..n],
            base_ends: &base_ends[0..n],
            marks: &marks[0..n],
        },
        q,
    );
    put_plan(rt, planned);
}

pub fn run_numbered(rt: &impl Print, s: &[u8]) {
    if s.len() < 9 {
        return put(rt, b"short\n");
    }
    let n = number(s, 3);
    if 4200 < n {
        return put(rt, b"long\n");
    }
    plan_numbered(rt, number(s, 1), n, number(s, 5), number(s, 7));
}
