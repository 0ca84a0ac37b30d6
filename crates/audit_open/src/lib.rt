// An audit opened, and what a run starts from.
#![tactic(auto)]

ghost use Rattle.std.specs.Prelude.{◌≡◌, ◌≤◌, length, replicate};
ghost use Rattle.bases.specs.Eligibility.{last_quality};
ghost use Rattle.catalogue.specs.Catalogue.{catalogue_in};
ghost use Rattle.index_seeds.specs.Key.{SeedLength};
ghost use Rattle.audit_ledger.specs.Booking.{lent_counters, left_counters};
ghost use Rattle.audit_model.specs.Settings.{fresh_state, zero_state};
ghost use Rattle.audit_model.specs.Calls.{lent_index, Opens};

use audit_checks::check_opening;
use audit_ledger::{Ledger, LentCounters};
use audit_model::calls::Opening;
use audit_model::settings::{AuditInputMode, AuditState, Settings};
use buffers::clear;
use catalogue::lent::LentCatalogue;
use index_columns::LentIndex;

// A state with nothing booked.
pub fn fresh_state(settings: Settings) -> AuditState
    ensures { result ≡ fresh_state settings }
{
    AuditState {
        settings,
        last: None,
        ledger: Ledger {
            table: [0; 18],
            reads: [0; 3],
            placements: 0,
            singles: 0,
            multi: 0,
            indeterminate: false,
        },
    }
}

// The all-zero state.
pub fn zero_state() -> AuditState
    ensures { result ≡ zero_state }
{
    fresh_state(Settings {
        mode: AuditInputMode::SingleEnd,
        remap: false,
        floor: 0,
        limit: 0,
    })
}

// Sets every number to zero.
fn zero_numbers(numbers: &mut [u64])
    ensures { numbers.new ≡ replicate (length numbers.old) 0 }
{
    let n = numbers.len();
    clear(numbers, n);
}

// Opens an audit with seeds of q bases and qualities from an offset on: refused, or a fresh state with every counter at zero.
pub fn open_audit(
    placements: &mut [u64],
    singles: &mut [u64],
    multi: &mut [u64],
    index: LentIndex<'_>,
    catalogue: LentCatalogue<'_>,
    indexed: bool,
    q: usize,
    offset: u8,
    settings: Settings,
) -> Opening
    requires { SeedLength q × (offset ≤ last_quality) }
    ensures { Opens q offset (catalogue_in catalogue.entry) (lent_index indexed index.entry.keys.now index.entry.ranks.now index.entry.positions.now)
        settings (lent_counters placements.old singles.old multi.old) result (left_counters placements.new singles.new multi.new) }
{
    let mut ranked = [0usize; 4096];
    let ranking = check_opening(
        &mut ranked,
        LentCounters {
            placements,
            singles,
            multi,
        },
        index,
        catalogue,
        indexed,
        q,
        offset,
        settings,
    );
    match ranking {
        Err(refusal) => Opening {
            answer: Err(refusal),
            state: zero_state(),
        },
        Ok(_) => {
            zero_numbers(placements);
            zero_numbers(singles);
            zero_numbers(multi);
            Opening {
                answer: Ok(()),
                state: fresh_state(settings),
            }
        }
    }
}
