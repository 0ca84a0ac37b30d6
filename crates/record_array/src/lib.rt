// A read mapped with an index that is lent as an array of records by value.
#![tactic(auto)]

ghost use Rattle.std.specs.Prelude.{◌≤◌, take};
ghost use Rattle.catalogue.specs.Catalogue.{catalogue_in};
ghost use Rattle.record_mapper.specs.Entry.{MapsRecords};

use catalogue::lent::LentCatalogue;
use map_answers::answer::Mapping;
use promises::refusal::Refusal;
use record_copy::SeedPosting;
use record_mapper::map_records;

// Maps a read with the first n records of an array.
pub fn map_array(
    entries: &mut [u64],
    keys: &mut [u64],
    ranks: &mut [u64],
    positions: &mut [u64],
    records: [SeedPosting; 256],
    n: usize,
    catalogue: LentCatalogue<'_>,
    q: usize,
    read: &[u8],
    limit: u64,
) -> Result<Mapping, Refusal>
    requires { n ≤ 256 }
    ensures { MapsRecords q (catalogue_in catalogue.entry) (take n records) read.now limit result entries.old keys.old ranks.old positions.old entries.new keys.new ranks.new positions.new }
{
    map_records(
        entries,
        keys,
        ranks,
        positions,
        &records[..n],
        catalogue,
        q,
        read,
        limit,
    )
}
