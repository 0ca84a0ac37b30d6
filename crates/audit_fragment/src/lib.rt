// A fragment: the opening's checks, then checked, observed and booked.
#![tactic(auto)]

ghost use Rattle.std.specs.Prelude.{◌≤◌};
ghost use Rattle.bases.specs.Eligibility.{last_quality};
ghost use Rattle.catalogue.specs.Catalogue.{catalogue_in};
ghost use Rattle.index_seeds.specs.Key.{SeedLength};
ghost use Rattle.audit_ledger.specs.Booking.{left_counters};
ghost use Rattle.audit_model.specs.Calls.{lent_held, lent_index, lent_mate, fragment_of, Audits};

use audit_checks::check_opening;
use audit_ledger::LentCounters;
use audit_model::calls::FragmentAudit;
use audit_model::settings::{AuditState, MateRole};
use audit_tested::audit_tested;
use catalogue::lent::LentCatalogue;
use index_columns::LentIndex;
use index_model::ranked::RankedTargets;

// Audits a fragment with seeds of q bases and qualities from an offset on: refused, or observed and booked.
pub fn audit_fragment(
    entries: &mut [u64],
    placements: &mut [u64],
    singles: &mut [u64],
    multi: &mut [u64],
    index: LentIndex<'_>,
    catalogue: LentCatalogue<'_>,
    first: &[u8],
    first_qualities: &[u8],
    second: &[u8],
    second_qualities: &[u8],
    first_role: MateRole,
    first_present: bool,
    second_role: MateRole,
    second_present: bool,
    ordinal: u64,
    count: usize,
    indexed: bool,
    q: usize,
    offset: u8,
    state: AuditState,
) -> FragmentAudit
    requires { SeedLength q × (offset ≤ last_quality) }
    ensures { Audits q offset (catalogue_in catalogue.entry) (lent_index indexed index.entry.keys.now index.entry.ranks.now index.entry.positions.now)
        (lent_held state placements.old singles.old multi.old)
        (fragment_of ordinal count (lent_mate first_role first.now first_present first_qualities.now) (lent_mate second_role second.now second_present second_qualities.now))
        entries.old result (left_counters placements.new singles.new multi.new) entries.new }
{
    let mut ranked = [0usize; 4096];
    let settings = state.settings;
    let ranking = check_opening(
        &mut ranked,
        LentCounters {
            placements,
            singles,
            multi,
        },
        index,
        catalogue,
        indexed,
        q,
        offset,
        settings,
    );
    match ranking {
        Err(refusal) => FragmentAudit {
            answer: Err(refusal),
            state,
        },
        Ok(k) => audit_tested(
            entries,
            placements,
            singles,
            multi,
            index,
            RankedTargets {
                bases: catalogue.bases,
                ends: catalogue.base_ends,
                ranked: &ranked[..k],
            },
            first,
            first_qualities,
            second,
            second_qualities,
            first_role,
            first_present,
            second_role,
            second_present,
            ordinal,
            count,
            indexed,
            q,
            offset,
            state,
        ),
    }
}
