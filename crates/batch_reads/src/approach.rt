// The first seeds of many reads approached in lock step, before the reads are mapped: the machine then fetches the keys that they are
// compared with at once, and not one after the other.
ghost use Rattle.bases.specs.Base.{Table};
ghost use Rattle.index_lookup.specs.Range.{Rising};
ghost use Rattle.batch_reads.specs.Approach.{Approachable, ReadLent};

use bases::base::table;
use buffers::least;
use identifiers::sequences::sequence_at;
use index_lookup::approach::{expected, nearer};
use index_seeds::keys::key_at;

// How many reads are approached together.
const BLOCK: usize = 32;

// The key of the first seed of a read on a strand; 0 if it has none.
fn first_key(
    table: &[u16; 256],
    q: usize,
    reads: &[u8],
    read_ends: &[usize],
    i: usize,
    strand: u64,
) -> u64
    requires { Table table.now × ReadLent q reads.now read_ends.now i }
{
    let read = sequence_at(reads, read_ends, i);
    if read.len() < q {
        return 0;
    }
    key_at(table, read, strand, q, 0)
}

// The keys that are sought for the reads from one on, and where each is expected.
fn first_places(
    places: &mut [usize; 32],
    sought: &mut [u64; 32],
    keys: &[u64],
    q: usize,
    reads: &[u8],
    read_ends: &[usize],
    from: usize,
    strand: u64,
)
    requires { Approachable keys.now q reads.now read_ends.now from }
{
    let table = table();
    let n = least(BLOCK, read_ends.len() - from);
    for j in 0..n {
        let key = first_key(&table, q, reads, read_ends, from + j, strand);
        sought[j] = key;
        places[j] = expected(keys, key);
    }
}

// Each place nearer to its key.
fn go_nearer(places: &mut [usize; 32], sought: &[u64; 32], keys: &[u64])
    requires { Rising keys.now }
{
    for j in 0..BLOCK {
        places[j] = nearer(keys, sought[j], places[j]);
    }
}

// Places near the first seeds of the reads from one on, on a strand.
fn approach_on(
    places: &mut [usize; 32],
    keys: &[u64],
    q: usize,
    reads: &[u8],
    read_ends: &[usize],
    from: usize,
    strand: u64,
)
    requires { Approachable keys.now q reads.now read_ends.now from }
{
    let mut sought = [0u64; 32];
    first_places(places, &mut sought, keys, q, reads, read_ends, from, strand);
    go_nearer(places, &sought, keys);
    go_nearer(places, &sought, keys);
    go_nearer(places, &sought, keys);
}

// The same on both strands, for the first of every 32 reads.
pub fn approach(
    plus: &mut [usize; 32],
    minus: &mut [usize; 32],
    keys: &[u64],
    q: usize,
    reads: &[u8],
    read_ends: &[usize],
    i: usize,
)
    requires { Approachable keys.now q reads.now read_ends.now i }
{
    if i % BLOCK != 0 {
        return;
    }
    approach_on(plus, keys, q, reads, read_ends, i, 0);
    approach_on(minus, keys, q, reads, read_ends, i, 1);
}
