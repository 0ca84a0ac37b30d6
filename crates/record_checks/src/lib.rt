// The seed length, the catalogue and the room of columns for records tested.
#![tactic(auto)]

ghost use Rattle.std.specs.Prelude.{min};
ghost use Rattle.catalogue.specs.Catalogue.{catalogue_in};
ghost use Rattle.record_checks.specs.Room.{CheckedAs};

use catalogue::lent::LentCatalogue;
use index_plan::plan;
use promises::refusal::Refusal;

// Tests the seed length, the catalogue and the room of the columns: refusals 1 to 5, or how many records are copied, which
// is all of them.
pub fn check_room(
    records: usize,
    keys: usize,
    ranks: usize,
    positions: usize,
    catalogue: LentCatalogue<'_>,
    q: usize,
) -> Result<usize, Refusal>
    ensures { CheckedAs q (catalogue_in catalogue.entry) records (min keys (min ranks positions)) result }
{
    plan(catalogue, q)?;
    let room = keys.min(ranks.min(positions));
    if room < records {
        return Err(Refusal::IndexRoom);
    }
    Ok(records)
}
