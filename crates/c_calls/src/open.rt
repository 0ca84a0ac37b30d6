// An audit opened, and its state written as numbers.
ghost use Rattle.catalogue.specs.Catalogue.{catalogue_in};
ghost use Rattle.audit_ledger.specs.Booking.{lent_counters, left_counters};
ghost use Rattle.audit_model.specs.Calls.{lent_index};
ghost use Rattle.c_calls.specs.Calls.{OpensNumbers};

use audit_codes::mode_of;
use audit_model::settings::{AUDIT_OFFSET, AUDIT_SEED, Settings};
use audit_open::open_audit;
use c_state::{STATE_LENGTH, put_state};
use catalogue::lent::LentCatalogue;
use index_columns::LentIndex;
use promises::refusal::number_of;

// Opens an audit by the index, or plain.
pub fn open_numbers(
    state: &mut [u64],
    placements: &mut [u64],
    singles: &mut [u64],
    multi: &mut [u64],
    index: LentIndex<'_>,
    catalogue: LentCatalogue<'_>,
    indexed: bool,
    mode: u8,
    remap: u8,
    floor: u8,
    limit: u64,
) -> u64
    ensures { OpensNumbers (catalogue_in catalogue.entry) (lent_index indexed index.entry.keys.now index.entry.ranks.now index.entry.positions.now)
        (lent_counters placements.old singles.old multi.old) mode remap floor limit state.old result (left_counters placements.new singles.new multi.new) state.new }
{
    if state.len() != STATE_LENGTH {
        return 26;
    }
    if 1 < mode {
        return 26;
    }
    if 1 < remap {
        return 26;
    }
    let settings = Settings {
        mode: mode_of(mode),
        remap: remap == 1,
        floor,
        limit,
    };
    let opened = open_audit(
        placements,
        singles,
        multi,
        index,
        catalogue,
        indexed,
        AUDIT_SEED,
        AUDIT_OFFSET,
        settings,
    );
    put_state(state, opened.state);
    number_of(opened.answer)
}
