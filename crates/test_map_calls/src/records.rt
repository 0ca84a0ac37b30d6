// The index lent as records, as many as the longest of its columns has numbers. A field past the end of its column is
// 2^64 - 1, which no posting has, so that columns of different lengths are refused as `map` refuses them.
ghost use Rattle.std.specs.Prelude.{◌≡◌, length};

use catalogue::lent::LentCatalogue;
use index_columns::LentIndex;
use map_answers::answer::Mapping;
use promises::refusal::Refusal;
use record_array::map_array;
use record_copy::SeedPosting;
use test_cases::reading::at_most;

// The number of a column at a place, or one that no posting has where the column ends before it.
fn field(column: &[u64], i: usize) -> u64 {
    if i < column.len() {
        column[i]
    } else {
        u64::MAX
    }
}

// The rows of three columns as records.
pub fn records_of(index: LentIndex<'_>) -> [SeedPosting; 256]
    ensures { 256 ≡ length result }
{
    let none = SeedPosting {
        key: 0,
        rank: 0,
        position: 0,
    };
    let mut records = [none; 256];
    for i in 0..256 {
        records[i] = SeedPosting {
            key: field(index.keys, i),
            rank: field(index.ranks, i),
            position: field(index.positions, i),
        };
    }
    records
}

// Maps a read, with columns of sevens to copy the records into.
pub fn map_records(
    entries: &mut [u64],
    index: LentIndex<'_>,
    catalogue: LentCatalogue<'_>,
    q: usize,
    read: &[u8],
    limit: u64,
) -> Result<Mapping, Refusal> {
    let mut ks = [7u64; 256];
    let mut rs = [7u64; 256];
    let mut ps = [7u64; 256];
    let n = index
        .keys
        .len()
        .max(index.ranks.len())
        .max(index.positions.len());
    map_array(
        entries,
        &mut ks,
        &mut rs,
        &mut ps,
        records_of(index),
        at_most(n, 256),
        catalogue,
        q,
        read,
        limit,
    )
}
