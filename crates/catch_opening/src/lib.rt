// The opening of a job: the checks of an audit, and the index of its targets, which is right since it is built here.
#![tactic(auto)]

ghost use Rattle.catalogue.specs.Catalogue.{catalogue_in};
ghost use Rattle.audit_ledger.specs.Booking.{counters_in};
ghost use Rattle.catch_opening.specs.Opened.{JobRoom, JobOpens};

use audit_checks::check_opening;
use audit_ledger::LentCounters;
use audit_model::settings::{AUDIT_OFFSET, AUDIT_SEED, Settings};
use catalogue::lent::LentCatalogue;
use index_build::build_index;
use index_columns::LentIndex;
use index_model::ranked::{RankedTargets, count_postings};
use promises::refusal::Refusal;

// How many targets are ranked, and how many postings there are.
#[derive(Clone, Copy)]
pub struct Indexed {
    pub ranked: usize,
    pub postings: usize,
}

// Opens a job: refused, or its targets ranked and their index built.
pub fn open_job(
    ranked: &mut [usize],
    keys: &mut [u64],
    ranks: &mut [u64],
    positions: &mut [u64],
    counters: LentCounters<'_>,
    catalogue: LentCatalogue<'_>,
    settings: Settings,
) -> Result<Indexed, Refusal>
    requires { JobRoom ranked.old keys.old ranks.old positions.old catalogue.bases.now }
    ensures { JobOpens (catalogue_in catalogue.entry) settings (counters_in counters.entry) result
        ranked.new keys.new ranks.new positions.new }
{
    let zero = [0u64; 1];
    let nothing = &zero[..0];
    let k = check_opening(
        ranked,
        counters,
        LentIndex {
            keys: nothing,
            ranks: nothing,
            positions: nothing,
        },
        catalogue,
        false,
        AUDIT_SEED,
        AUDIT_OFFSET,
        settings,
    )?;
    let targets = RankedTargets {
        bases: catalogue.bases,
        ends: catalogue.base_ends,
        ranked: &ranked[..k],
    };
    let n = count_postings(targets, AUDIT_SEED);
    build_index(keys, ranks, positions, targets, AUDIT_SEED);
    Ok(Indexed {
        ranked: k,
        postings: n,
    })
}
