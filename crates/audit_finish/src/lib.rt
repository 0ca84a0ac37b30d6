// An audit finished.
#![tactic(auto)]

ghost use Rattle.bases.specs.Eligibility.{last_quality};
ghost use Rattle.catalogue.specs.Catalogue.{catalogue_in};
ghost use Rattle.index_seeds.specs.Key.{SeedLength};
ghost use Rattle.std.specs.Prelude.{◌≤◌};
ghost use Rattle.audit_model.specs.Calls.{lent_held, lent_index, Finishes};
ghost use Rattle.audit_finish.specs.Tested.{FinishesTested};

use audit_checks::check_opening;
use audit_ledger::LentCounters;
use audit_model::calls::Finish;
use audit_model::settings::AuditState;
use audit_open::zero_state;
use audit_sheet::balance::books_agree;
use audit_sheet::showing::sheet_of;
use catalogue::lent::LentCatalogue;
use index_columns::LentIndex;
use promises::refusal::Refusal;

// Finishes an audit whose catalogue was tested: 18, or its sheet.
pub fn finish_tested(counters: LentCounters<'_>, state: AuditState) -> Finish
    ensures { FinishesTested (lent_held state counters.entry.placements.now counters.entry.singles.now counters.entry.multi.now) result }
{
    let settings = state.settings;
    let ledger = state.ledger;
    if !books_agree(ledger, counters, settings) {
        let nothing = sheet_of(zero_state());
        return Finish {
            answer: Err(Refusal::BooksApart),
            sheet: nothing,
        };
    }
    Finish {
        answer: Ok(()),
        sheet: sheet_of(state),
    }
}

// Finishes an audit with seeds of q bases and qualities from an offset on: refused, or its sheet.
pub fn finish_audit(
    counters: LentCounters<'_>,
    index: LentIndex<'_>,
    catalogue: LentCatalogue<'_>,
    indexed: bool,
    q: usize,
    offset: u8,
    state: AuditState,
) -> Finish
    requires { SeedLength q × (offset ≤ last_quality) }
    ensures { Finishes q offset (catalogue_in catalogue.entry) (lent_index indexed index.entry.keys.now index.entry.ranks.now index.entry.positions.now)
        (lent_held state counters.entry.placements.now counters.entry.singles.now counters.entry.multi.now) result }
{
    let mut ranked = [0usize; 4096];
    let settings = state.settings;
    let ranking = check_opening(
        &mut ranked,
        counters,
        index,
        catalogue,
        indexed,
        q,
        offset,
        settings,
    );
    match ranking {
        Err(refusal) => Finish {
            answer: Err(refusal),
            sheet: sheet_of(zero_state()),
        },
        Ok(_) => finish_tested(counters, state),
    }
}
