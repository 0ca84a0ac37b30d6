// Places near a key. They change how long a search takes that begins there, and nothing else.
ghost use Rattle.index_lookup.specs.Range.{Rising};

use crate::lookup::{NOWHERE, expected_place, probe_after, probe_before, typical_gap};
use crate::read::posting_key;

// Where a key is expected, by the spread of all keys.
pub fn expected(keys: &[u64], key: u64) -> usize
    requires { Rising keys.now }
{
    if keys.is_empty() {
        return NOWHERE;
    }
    let gap = typical_gap(keys);
    expected_place(keys, key, gap)
}

// Where a key is expected, by that at a place.
pub fn nearer(keys: &[u64], key: u64, at: usize) -> usize
    requires { Rising keys.now }
{
    if keys.len() <= at {
        return at;
    }
    let gap = typical_gap(keys);
    let here = posting_key(keys, at);
    if here < key {
        return probe_after(at, keys.len(), here, key, gap, 0);
    }
    probe_before(0, at + 1, here, key, gap, 0)
}
