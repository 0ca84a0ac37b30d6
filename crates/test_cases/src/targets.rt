// Targets in a case: lengths of identifier bytes, identifier ends, base bytes, base ends and marks, and elsewhere these five
// lists, one behind the other. Lengths and ends are numbers of two bytes.
ghost use Rattle.std.specs.Prelude.{◌+◌, ◌*◌, ◌<◌, ◌≤◌, ◌≡◌, length};
ghost use Rattle.test_cases.specs.Cases.{ListsIn};

use crate::reading::{number, part_end};

// Where the lists start; where identifiers, their ends, bases, their ends and marks end, each where the next begins; how
// many ends there are of identifiers and of bases.
#[derive(Clone, Copy)]
pub struct Lists {
    pub start: usize,
    pub identifiers: usize,
    pub named: usize,
    pub bases: usize,
    pub ended: usize,
    pub marks: usize,
    pub names: usize,
    pub sequences: usize,
}

// How many ends there are from a place on: n, or none where these are over 16 or past the bytes.
fn end_count(s: &[u8], from: usize, n: usize) -> usize
    requires { from ≤ length s.now }
    ensures { (result ≤ 16) × ((from + result * 2 ≤ length s.now) × (from + result * 2 < 18446744073709551616)) }
{
    if 16 < n || s.len() - from < n * 2 {
        return 0;
    }
    n
}

// The lists from a place on, with their lengths at another.
pub fn lists_at(s: &[u8], lengths: usize, start: usize) -> Lists
    requires { (lengths + 9 < length s.now) × (start ≤ length s.now) }
    ensures { ListsIn result (length s.now) }
{
    let identifiers = part_end(s, start, number(s, lengths));
    let names = end_count(s, identifiers, number(s, lengths + 2));
    let named = identifiers + names * 2;
    let bases = part_end(s, named, number(s, lengths + 4));
    let sequences = end_count(s, bases, number(s, lengths + 6));
    let ended = bases + sequences * 2;
    let marks = part_end(s, ended, number(s, lengths + 8));
    Lists {
        start,
        identifiers,
        named,
        bases,
        ended,
        marks,
        names,
        sequences,
    }
}

// The n ends from a place on.
fn read_ends(s: &[u8], from: usize, n: usize) -> [usize; 16]
    requires { (n ≤ 16) × (from + n * 2 ≤ length s.now) }
    ensures { 16 ≡ length result }
{
    let mut ends = [0usize; 16];
    for i in 0..n {
        ends[i] = number(s, from + i * 2);
    }
    ends
}

pub fn identifiers_in(s: &[u8], lists: Lists) -> &[u8]
    requires { ListsIn lists (length s.now) }
{
    &s[lists.start..lists.identifiers]
}

pub fn identifier_ends_in(s: &[u8], lists: Lists) -> [usize; 16]
    requires { ListsIn lists (length s.now) }
    ensures { 16 ≡ length result }
{
    read_ends(s, lists.identifiers, lists.names)
}

pub fn bases_in(s: &[u8], lists: Lists) -> &[u8]
    requires { ListsIn lists (length s.now) }
{
    &s[lists.named..lists.bases]
}

pub fn base_ends_in(s: &[u8], lists: Lists) -> [usize; 16]
    requires { ListsIn lists (length s.now) }
    ensures { 16 ≡ length result }
{
    read_ends(s, lists.bases, lists.sequences)
}

pub fn marks_in(s: &[u8], lists: Lists) -> &[u8]
    requires { ListsIn lists (length s.now) }
{
    &s[lists.ended..lists.marks]
}
