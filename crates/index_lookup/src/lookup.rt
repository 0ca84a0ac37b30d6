// The postings of a key in an index. A search starts where the spread of the keys lets it expect the key, and goes on from
// there in steps that grow; a wrong expectation costs time and nothing else.
ghost use Rattle.std.specs.Prelude.{◌<◌, ◌≤◌, length};
ghost use Rattle.index_lookup.specs.Range.{Rising, Within, SearchFrom, BoundAt, RangeOf};

use crate::read::posting_key;

// No place: what is told of a key that nothing is known of.
pub const NOWHERE: usize = 18446744073709551615;

// The places from start up to end.
#[derive(Clone, Copy)]
pub struct Range {
    pub start: usize,
    pub end: usize,
}

// A step so long that a search halves what is left.
const HALVING: u64 = 256;

// A place from low up to high: as far behind low as two keys are thought to be apart, and a step more, or the last one; or the middle.
pub(crate) fn probe_after(low: usize, high: usize, a: u64, b: u64, gap: u64, step: u64) -> usize
    requires { 1 ≤ gap }
    ensures { Within low high result }
{
    if high <= low {
        return low;
    }
    if HALVING <= step {
        return low + (high - low) / 2;
    }
    let room = (high - low) as u64;
    let by = keys_between(a, b, gap);
    if room <= by || room - by <= step {
        return high - 1;
    }
    low + (by + step) as usize
}

// The same in front of high.
pub(crate) fn probe_before(low: usize, high: usize, a: u64, b: u64, gap: u64, step: u64) -> usize
    requires { 1 ≤ gap }
    ensures { Within low high result }
{
    if high <= low {
        return low;
    }
    if HALVING <= step {
        return low + (high - low) / 2;
    }
    let room = (high - low) as u64;
    let by = keys_between(a, b, gap);
    if room <= by || room - by <= step {
        return low;
    }
    high - 1 - (by + step) as usize
}

// The step behind this one: twice as long, up to one that halves.
fn longer(step: u64) -> u64 {
    if HALVING <= step {
        return step;
    }
    step * 2 + 1
}

// How many keys are thought to stand between two.
fn keys_between(a: u64, b: u64, gap: u64) -> u64
    requires { 1 ≤ gap }
{
    a.abs_diff(b) / gap
}

// The first place from `from` on whose key is not below a bound, or the end. The search begins at `first`; keys are thought
// to be `gap` apart. Behind the first probe it makes steps from the one that is told on.
fn lower_bound(keys: &[u64], bound: u64, from: usize, first: usize, gap: u64, step: u64) -> usize
    requires { SearchFrom keys.now bound from first gap }
    ensures { BoundAt keys.now bound result }
{
    let mut low = from;
    let mut high = keys.len();
    let mut mid = first;
    let mut next = step;
    while low < high {
        let near = next;
        next = longer(next);
        let key = posting_key(keys, mid);
        if key < bound {
            low = mid + 1;
            mid = probe_after(low, high, key, bound, gap, near);
        } else {
            high = mid;
            mid = probe_before(low, high, bound, key, gap, near);
        }
    }
    low
}

// How far apart keys are on the whole, at least 1.
pub(crate) fn typical_gap(keys: &[u64]) -> u64
    requires rising { Rising keys.now }
    requires keys_nonzero { 0 < length keys.now }
    ensures { 1 ≤ result }
{
    let first = posting_key(keys, 0);
    let last = posting_key(keys, keys.len() - 1);
    let gap = (last - first) / keys.len() as u64;
    gap.max(1)
}

// Where a key is expected.
pub(crate) fn expected_place(keys: &[u64], key: u64, gap: u64) -> usize
    requires { (0 < length keys.now) × (1 ≤ gap) }
    ensures { result < length keys.now }
{
    let first = posting_key(keys, 0);
    let place = key.saturating_sub(first) / gap;
    (keys.len() - 1).min(place as usize)
}

// Where a search begins: near a place that is told, if there is such a place, and else where the key is expected.
fn first_probe(keys: &[u64], key: u64, gap: u64, near: usize) -> usize
    requires { (0 < length keys.now) × (1 ≤ gap) }
    ensures { result < length keys.now }
{
    if near < keys.len() {
        return near;
    }
    expected_place(keys, key, gap)
}

// The first step of a search: none, or one that halves where the keys crowd together, so that nothing can be expected: the middle one of
// them is in the first or the last quarter of their range.
fn first_step(keys: &[u64]) -> u64
    requires rising { Rising keys.now }
    requires keys_nonzero { 0 < length keys.now }
{
    let first = posting_key(keys, 0);
    let middle = posting_key(keys, keys.len() / 2);
    let last = posting_key(keys, keys.len() - 1);
    let quarter = (last - first) / 4;
    if middle < first + quarter || last - quarter < middle {
        return HALVING;
    }
    0
}

// Where the postings of a key stand; the search for them begins near a place that is told.
pub fn posting_range(keys: &[u64], key: u64, near: usize) -> Range
    requires { Rising keys.now }
    ensures { RangeOf keys.now key result.start result.end }
{
    if keys.is_empty() {
        return Range { start: 0, end: 0 };
    }
    let gap = typical_gap(keys);
    let first = first_probe(keys, key, gap, near);
    let start = lower_bound(keys, key, 0, first, gap, first_step(keys));
    if key == u64::MAX {
        return Range {
            start,
            end: keys.len(),
        };
    }
    Range {
        start,
        end: lower_bound(keys, key + 1, start, start, gap, 0),
    }
}
