// What a search answers, by the matches that it saw under a bound.
#![tactic(auto)]

ghost use Rattle.std.specs.Prelude.{◌≡◌, min};
ghost use Rattle.map_answers.specs.Answer.{Concluded};

use answer::{Mapping, ReadState, state_of};
use map_by_index::work::MappingWork;
use map_every_start::entries::clear_entries;
use promises::refusal::Refusal;

pub mod answer;
pub mod bounds;

// The lesser of the limit and the number of entries: a search need not go on past either.
pub fn bound_of(limit: u64, entries: usize) -> usize
    ensures { result ≡ min limit entries }
{
    limit.min(entries as u64) as usize
}

// The answer by the matches seen under a bound. Where there are more, the entries are set to zero.
#[tactic(auto, using(crate::proofs::Concluding::conclude_few, crate::proofs::Concluding::conclude_short, crate::proofs::Concluding::conclude_past))]
pub fn conclude(
    entries: &mut [u64],
    limit: u64,
    bound: usize,
    work: MappingWork,
) -> Result<Mapping, Refusal>
    ensures { Concluded limit bound work result entries.old entries.new }
{
    let seen = work.seen as usize;
    if seen <= bound {
        return Ok(Mapping {
            state: state_of(seen),
            groups: seen,
            work,
        });
    }
    clear_entries(entries);
    let room = entries.len() / 4;
    if (room as u64) < limit {
        return Err(Refusal::PlacementRoom);
    }
    Ok(Mapping {
        state: ReadState::Indeterminate,
        groups: 0,
        work,
    })
}
