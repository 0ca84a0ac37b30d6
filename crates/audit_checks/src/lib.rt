// The checks of an opening.
#![tactic(auto)]

ghost use Rattle.std.specs.Prelude.{◌≡◌, ◌≤◌};
ghost use Rattle.bases.specs.Eligibility.{last_quality};
ghost use Rattle.catalogue.specs.Catalogue.{catalogue_in};
ghost use Rattle.index_seeds.specs.Key.{SeedLength};
ghost use Rattle.index_model.specs.Index.{Lent, sequences_in};
ghost use Rattle.audit_ledger.specs.Booking.{counters_for, counters_in};
ghost use Rattle.audit_model.specs.Calls.{lent_index};
ghost use Rattle.audit_checks.specs.Opens.{settings_refusal, index_fits, Checkable, OpeningRanked};
ghost use Rattle.promises.specs.Refusal.{test_number};

use audit_ledger::LentCounters;
use audit_model::settings::Settings;
use catalogue::lent::LentCatalogue;
use index_columns::LentIndex;
use index_model::ranked::RankedTargets;
use index_model::test::is_index;
use index_plan::rank_checked;
use map_answers::bounds::limit_right;
use promises::refusal::Refusal;

// Tests settings: 11 and 9, or none.
fn check_settings(settings: Settings, offset: u8) -> Result<(), Refusal>
    requires { offset ≤ last_quality }
    ensures { test_number result ≡ settings_refusal offset settings }
{
    if 126 - offset < settings.floor {
        return Err(Refusal::QualityFloor);
    }
    if !limit_right(settings.limit) {
        return Err(Refusal::CandidateLimit);
    }
    Ok(())
}

// Whether there are as many counters of each kind as targets.
#[tactic(auto, using(crate::proofs::Opening::placements_other, crate::proofs::Opening::singles_other, crate::proofs::Opening::by_multi))]
fn counters_right(counters: LentCounters<'_>, targets: usize) -> bool
    ensures { result ≡ counters_for targets (counters_in counters.entry) }
{
    if counters.placements.len() != targets {
        return false;
    }
    if counters.singles.len() != targets {
        return false;
    }
    counters.multi.len() == targets
}

// Whether the columns are the index of the ranked sequences, where they are tested.
fn index_fits(tested: bool, index: LentIndex<'_>, targets: RankedTargets<'_, '_>, q: usize) -> bool
    requires { Lent targets.bases.now targets.ends.now targets.ranked.now × SeedLength q }
    ensures { result ≡ index_fits tested q (sequences_in targets.entry) index.entry.keys.now index.entry.ranks.now index.entry.positions.now }
{
    if !tested {
        return true;
    }
    is_index(index, targets, q)
}

// The checks of an opening: 11, 9, 2, 3, 4, and 6 with remap on where there is an index; else the targets ranked.
pub fn check_opening(
    ranked: &mut [usize],
    counters: LentCounters<'_>,
    index: LentIndex<'_>,
    catalogue: LentCatalogue<'_>,
    indexed: bool,
    q: usize,
    offset: u8,
    settings: Settings,
) -> Result<usize, Refusal>
    requires { Checkable q offset ranked.old }
    ensures { OpeningRanked q offset (catalogue_in catalogue.entry) (lent_index indexed index.entry.keys.now index.entry.ranks.now index.entry.positions.now) settings (counters_in counters.entry) result ranked.new }
{
    check_settings(settings, offset)?;
    if !counters_right(counters, catalogue.marks.len()) {
        return Err(Refusal::Catalogue);
    }
    let k = rank_checked(ranked, catalogue, q)?;
    let targets = RankedTargets {
        bases: catalogue.bases,
        ends: catalogue.base_ends,
        ranked: &ranked[..k],
    };
    let tested = indexed && settings.remap;
    if !index_fits(tested, index, targets, q) {
        return Err(Refusal::StaleIndex);
    }
    Ok(k)
}
