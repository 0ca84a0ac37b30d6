// An audit finished.
ghost use Rattle.std.specs.Prelude.{true};
ghost use Rattle.catalogue.specs.Catalogue.{catalogue_in};
ghost use Rattle.audit_model.specs.Settings.{audit_seed, audit_offset};
ghost use Rattle.audit_model.specs.Opening.{none};
ghost use Rattle.audit_model.specs.Calls.{lent_held, lent_index, Finishes};

use audit_finish::finish_audit;
use audit_ledger::LentCounters;
use audit_model::calls::Finish;
use audit_model::settings::{AUDIT_OFFSET, AUDIT_SEED, AuditState};
use catalogue::lent::LentCatalogue;
use index_columns::LentIndex;

// Finishes an audit by the index: refused, or its sheet. State and counters stay.
pub fn finish(
    counters: LentCounters<'_>,
    index: LentIndex<'_>,
    catalogue: LentCatalogue<'_>,
    state: AuditState,
) -> Finish
    ensures { Finishes audit_seed audit_offset (catalogue_in catalogue.entry) (lent_index true index.entry.keys.now index.entry.ranks.now index.entry.positions.now)
        (lent_held state counters.entry.placements.now counters.entry.singles.now counters.entry.multi.now) result }
{
    finish_audit(
        counters,
        index,
        catalogue,
        true,
        AUDIT_SEED,
        AUDIT_OFFSET,
        state,
    )
}

// Finishes an audit that compares at every start.
pub fn plain_finish(
    counters: LentCounters<'_>,
    catalogue: LentCatalogue<'_>,
    state: AuditState,
) -> Finish
    ensures { Finishes audit_seed audit_offset (catalogue_in catalogue.entry) none
        (lent_held state counters.entry.placements.now counters.entry.singles.now counters.entry.multi.now) result }
{
    let zero = [0u64; 1];
    let nothing = &zero[..0];
    finish_audit(
        counters,
        LentIndex {
            keys: nothing,
            ranks: nothing,
            positions: nothing,
        },
        catalogue,
        false,
        AUDIT_SEED,
        AUDIT_OFFSET,
        state,
    )
}
