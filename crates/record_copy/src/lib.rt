// Records copied into columns.
#![tactic(auto)]

ghost use Rattle.record_copy.specs.Records.{RowIn, RowSet, Fits, Copied};

// A seed of an index: its key, the rank of its target, and its position there.
#[derive(Clone, Copy)]
pub struct SeedPosting {
    pub key: u64,
    pub rank: u64,
    pub position: u64,
}

// Stores the fields of a record in a row of the columns.
fn put_row(keys: &mut [u64], ranks: &mut [u64], positions: &mut [u64], i: usize, p: SeedPosting)
    requires { RowIn i keys.old ranks.old positions.old }
    ensures { RowSet i p keys.old ranks.old positions.old keys.new ranks.new positions.new }
{
    keys[i] = p.key;
    ranks[i] = p.rank;
    positions[i] = p.position;
}

// Copies the first n records into the columns, field by field.
pub fn copy_records(
    keys: &mut [u64],
    ranks: &mut [u64],
    positions: &mut [u64],
    records: &[SeedPosting],
    n: usize,
)
    requires { Fits n records.now keys.old ranks.old positions.old }
    ensures { Copied n records.now keys.old ranks.old positions.old keys.new ranks.new positions.new }
{
    for i in 0..n {
        put_row(keys, ranks, positions, i, records[i]);
    }
}
