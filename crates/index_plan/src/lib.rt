// The seed length and the catalogue tested, its targets ranked, and its index planned.
#![tactic(auto)]

ghost use Rattle.std.specs.Prelude.{◌≡◌, ◌≤◌, length};
ghost use Rattle.promises.specs.Refusal.{accepted};
ghost use Rattle.catalogue.specs.Catalogue.{catalogue_in, max_targets};
ghost use Rattle.index_model.specs.Index.{seed_right};
ghost use Rattle.index_plan.specs.Answers.{plan_outcome, planned, PlanRanked};

use catalogue::lent::LentCatalogue;
use catalogue::ranks::rank_targets;
use index_model::ranked::{RankedTargets, count_postings};
use promises::refusal::Refusal;

// How many targets are mapped, and how many postings their index has.
#[derive(Clone, Copy)]
pub struct Counts {
    pub targets: usize,
    pub postings: usize,
}

// Whether seeds may have a length.
fn seed_length_right(q: usize) -> bool
    ensures { result ≡ seed_right q }
{
    matches!(q, 1..=31)
}

// Tests the seed length and the catalogue, and ranks its targets.
pub fn rank_checked(
    ranked: &mut [usize],
    catalogue: LentCatalogue<'_>,
    q: usize,
) -> Result<usize, Refusal>
    requires { max_targets ≤ length ranked.old }
    ensures { PlanRanked q (catalogue_in catalogue.entry) result ranked.new }
{
    if !seed_length_right(q) {
        return Err(Refusal::SeedLength);
    }
    rank_targets(ranked, catalogue)
}

// Plans the index of a catalogue: refusals 1 to 4, or how large it is.
pub fn plan(catalogue: LentCatalogue<'_>, q: usize) -> Result<Counts, Refusal>
    ensures { plan_outcome result ≡ planned q (catalogue_in catalogue.entry) }
{
    let mut places = [0usize; 4096];
    let k = rank_checked(&mut places, catalogue, q)?;
    let targets = RankedTargets {
        bases: catalogue.bases,
        ends: catalogue.base_ends,
        ranked: &places[..k],
    };
    Ok(Counts {
        targets: k,
        postings: count_postings(targets, q),
    })
}
