// An audit opened.
ghost use Rattle.std.specs.Prelude.{true};
ghost use Rattle.catalogue.specs.Catalogue.{catalogue_in};
ghost use Rattle.audit_ledger.specs.Booking.{lent_counters, left_counters};
ghost use Rattle.audit_model.specs.Settings.{audit_seed, audit_offset};
ghost use Rattle.audit_model.specs.Opening.{none};
ghost use Rattle.audit_model.specs.Calls.{lent_index, Opens};

use audit_model::calls::Opening;
use audit_model::settings::{AUDIT_OFFSET, AUDIT_SEED, Settings};
use audit_open::open_audit;
use catalogue::lent::LentCatalogue;
use index_columns::LentIndex;

// Opens an audit by the index: refused, or a fresh state with every counter at zero.
pub fn open(
    placements: &mut [u64],
    singles: &mut [u64],
    multi: &mut [u64],
    index: LentIndex<'_>,
    catalogue: LentCatalogue<'_>,
    settings: Settings,
) -> Opening
    ensures { Opens audit_seed audit_offset (catalogue_in catalogue.entry) (lent_index true index.entry.keys.now index.entry.ranks.now index.entry.positions.now)
        settings (lent_counters placements.old singles.old multi.old) result (left_counters placements.new singles.new multi.new) }
{
    open_audit(
        placements,
        singles,
        multi,
        index,
        catalogue,
        true,
        AUDIT_SEED,
        AUDIT_OFFSET,
        settings,
    )
}

// Opens an audit that compares at every start.
pub fn plain_open(
    placements: &mut [u64],
    singles: &mut [u64],
    multi: &mut [u64],
    catalogue: LentCatalogue<'_>,
    settings: Settings,
) -> Opening
    ensures { Opens audit_seed audit_offset (catalogue_in catalogue.entry) none
        settings (lent_counters placements.old singles.old multi.old) result (left_counters placements.new singles.new multi.new) }
{
    let zero = [0u64; 1];
    let nothing = &zero[..0];
    open_audit(
        placements,
        singles,
        multi,
        LentIndex {
            keys: nothing,
            ranks: nothing,
            positions: nothing,
        },
        catalogue,
        false,
        AUDIT_SEED,
        AUDIT_OFFSET,
        settings,
    )
}
