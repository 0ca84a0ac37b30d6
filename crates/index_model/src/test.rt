// The test of a lent index, block by block: every row is a seed and earlier than the next, and there are as many as seeds.
ghost use Rattle.std.specs.Prelude.{◌≡◌, true, ◌&&◌, ◌-◌, ◌^◌, ◌<◌, length, ltb, eqb};
ghost use Rattle.lists.specs.Cut.{window};
ghost use Rattle.bases.specs.Base.{Table};
ghost use Rattle.bases.specs.Read.{capitals};
ghost use Rattle.index_columns.specs.Posting.{Columns, posting};
ghost use Rattle.index_seeds.specs.Key.{key_of, SeedLength};
ghost use Rattle.index_seeds.specs.Window.{starts};
ghost use Rattle.index_model.specs.Index.{index_of, columns_of, is_seed, RowsRight, Block, BlockRight, Tells, Denies, Climbs, Lent, sequences_in};

use crate::ranked::{RankedTargets, count_postings, ranked_sequence};
use bases::base::table;
use bases::strand::oriented_code;
use index_columns::{LentIndex, precedes};
use index_lookup::read::{posting_key, posting_position, posting_rank};
use index_seeds::fours::key_by_fours;
use index_seeds::keys::power;

// So many rows are tested together: their bases are asked for first, all at once.
const BLOCK: usize = 64;

// Whether a seed of a sequence has a start and a key.
fn has_seed(table: &[u16; 256], sequence: &[u8], q: usize, start: usize, key: u64) -> bool
    requires table { Table table.now }
    requires seed_length { SeedLength q × (capitals sequence.now ≡ true) }
    ensures { result ≡ (ltb start (starts q sequence.now) && eqb key (key_of (window sequence.now start q))) }
{
    q <= sequence.len()
        && start <= sequence.len() - q
        && key == key_by_fours(table, sequence, q, start)
}

// Whether a posting is a seed of the ranked sequences.
fn is_seed(
    table: &[u16; 256],
    key: u64,
    rank: usize,
    position: usize,
    targets: RankedTargets<'_, '_>,
    q: usize,
) -> bool
    requires table { Table table.now }
    requires lent { Lent targets.bases.now targets.ends.now targets.ranked.now × SeedLength q }
    ensures { result ≡ is_seed q (sequences_in targets.entry) (posting key rank position) }
{
    rank < targets.ranked.len() && has_seed(table, ranked_sequence(targets, rank), q, position, key)
}

// Whether row i is later than the row before it; the first row is.
fn row_climbs(index: LentIndex<'_>, i: usize) -> bool
    requires { Columns index.keys.now index.ranks.now index.positions.now × (i < length index.keys.now) }
    ensures { Tells result (Climbs index.entry.keys.now index.entry.ranks.now index.entry.positions.now i) }
{
    i == 0 || precedes(index.keys, index.ranks, index.positions, i - 1, i)
}

// Where a block of rows that starts at a row ends.
fn block_end(from: usize, rows: usize) -> usize
    requires { from < rows }
    ensures { Block rows from result }
{
    from + BLOCK.min(rows - from)
}

// Whether the first base of a seed is not above the first digit of a key, and the last base is the last digit; a posting is no seed
// where it is not so. The first digit counts `high`.
fn ends_right(
    table: &[u16; 256],
    key: u64,
    rank: usize,
    position: usize,
    targets: RankedTargets<'_, '_>,
    q: usize,
    high: u64,
) -> bool
    requires table { Table table.now }
    requires lent { Lent targets.bases.now targets.ends.now targets.ranked.now × (SeedLength q × (high ≡ 4 ^ (q - 1))) }
    ensures { Denies result (is_seed q (sequences_in targets.entry) (posting key rank position) ≡ true) }
{
    if rank >= targets.ranked.len() {
        return false;
    }
    let sequence = ranked_sequence(targets, rank);
    if sequence.len() < q || sequence.len() - q < position {
        return false;
    }
    if key < oriented_code(table, sequence, 0, position) * high {
        return false;
    }
    key % 4 == oriented_code(table, sequence, 0, position + (q - 1))
}

// Whether the first and the last base of every row of a block are right. It only makes the test quick: no row waits for another, so
// that the machine reads their bases at the same time, and `block_right`, which tests everything, finds them at hand.
fn block_ends_right(
    table: &[u16; 256],
    index: LentIndex<'_>,
    targets: RankedTargets<'_, '_>,
    q: usize,
    from: usize,
    end: usize,
) -> bool
    requires table { Table table.now }
    requires columns { Columns index.keys.now index.ranks.now index.positions.now × (Lent targets.bases.now targets.ends.now targets.ranked.now × SeedLength q) }
    requires block { Block (length index.keys.now) from end }
    ensures { Denies result (RowsRight q (sequences_in targets.entry) index.entry.keys.now index.entry.ranks.now index.entry.positions.now) }
{
    let high = power(q - 1);
    let mut right = true;
    for row in from..end {
        let key = posting_key(index.keys, row);
        let rank = posting_rank(index.ranks, row);
        let position = posting_position(index.positions, row);
        right &= ends_right(table, key, rank, position, targets, q, high);
    }
    right
}

// Whether every row of a block is a seed and later than the row before it.
fn block_right(
    table: &[u16; 256],
    index: LentIndex<'_>,
    targets: RankedTargets<'_, '_>,
    q: usize,
    from: usize,
    end: usize,
) -> bool
    requires table { Table table.now }
    requires columns { Columns index.keys.now index.ranks.now index.positions.now × (Lent targets.bases.now targets.ends.now targets.ranked.now × SeedLength q) }
    requires block { Block (length index.keys.now) from end }
    ensures { Tells result (BlockRight q (sequences_in targets.entry) index.entry.keys.now index.entry.ranks.now index.entry.positions.now from end) }
{
    for i in from..end {
        let key = posting_key(index.keys, i);
        let rank = posting_rank(index.ranks, i);
        let position = posting_position(index.positions, i);
        if !is_seed(table, key, rank, position, targets, q) {
            return false;
        }
        if !row_climbs(index, i) {
            return false;
        }
    }
    true
}

// Whether every row is a seed and earlier than the next, block by block.
fn rows_right(index: LentIndex<'_>, targets: RankedTargets<'_, '_>, q: usize) -> bool
    requires { Columns index.keys.now index.ranks.now index.positions.now × (Lent targets.bases.now targets.ends.now targets.ranked.now × SeedLength q) }
    ensures { Tells result (RowsRight q (sequences_in targets.entry) index.entry.keys.now index.entry.ranks.now index.entry.positions.now) }
{
    let table = table();
    let mut from = 0;
    while from < index.keys.len() {
        let end = block_end(from, index.keys.len());
        if !block_ends_right(&table, index, targets, q, from, end) {
            return false;
        }
        if !block_right(&table, index, targets, q, from, end) {
            return false;
        }
        from = end;
    }
    true
}

// Whether three columns are the index of ranked sequences.
pub fn is_index(index: LentIndex<'_>, targets: RankedTargets<'_, '_>, q: usize) -> bool
    requires { Lent targets.bases.now targets.ends.now targets.ranked.now × SeedLength q }
    ensures { result ≡ columns_of (index_of q (sequences_in targets.entry)) index.entry.keys.now index.entry.ranks.now index.entry.positions.now }
{
    let n = count_postings(targets, q);
    if index.keys.len() != n || index.ranks.len() != n || index.positions.len() != n {
        return false;
    }
    rows_right(index, targets, q)
}
