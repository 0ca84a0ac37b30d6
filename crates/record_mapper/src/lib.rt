// A read mapped with an index that is lent as one slice of records.
#![tactic(auto)]

ghost use Rattle.catalogue.specs.Catalogue.{catalogue_in};
ghost use Rattle.record_mapper.specs.Entry.{MapsRecords};

use catalogue::lent::LentCatalogue;
use index_columns::LentIndex;
use indexed_mapper::map::map;
use map_answers::answer::Mapping;
use promises::refusal::Refusal;
use record_checks::check_room;
use record_copy::{SeedPosting, copy_records};

// Maps a read as `map` does, with the index in one slice of records, whose fields are copied into the columns: refusals 1
// to 5, and then no column is touched, and 6 to 10, or the state and the groups of the read.
pub fn map_records(
    entries: &mut [u64],
    keys: &mut [u64],
    ranks: &mut [u64],
    positions: &mut [u64],
    records: &[SeedPosting],
    catalogue: LentCatalogue<'_>,
    q: usize,
    read: &[u8],
    limit: u64,
) -> Result<Mapping, Refusal>
    ensures { MapsRecords q (catalogue_in catalogue.entry) records.now read.now limit result entries.old keys.old ranks.old positions.old entries.new keys.new ranks.new positions.new }
{
    let n = check_room(
        records.len(),
        keys.len(),
        ranks.len(),
        positions.len(),
        catalogue,
        q,
    )?;
    copy_records(keys, ranks, positions, records, n);
    let index = LentIndex {
        keys: &keys[..n],
        ranks: &ranks[..n],
        positions: &positions[..n],
    };
    map(entries, index, catalogue, q, read, limit)
}
