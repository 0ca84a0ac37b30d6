// What a search answers.
ghost use Rattle.std.specs.Prelude.{◌≡◌};
ghost use Rattle.map_answers.specs.Answer.{state_number, state_of};

use map_by_index::work::MappingWork;

#[derive(Clone, Copy)]
pub enum ReadState {
    NotRequested,
    Ineligible,
    Indeterminate,
    Unmapped,
    Single,
    Multiple,
}

// A mapped read: its state, the number of its groups that are listed, and the work of the search.
#[derive(Clone, Copy)]
pub struct Mapping {
    pub state: ReadState,
    pub groups: usize,
    pub work: MappingWork,
}

// The state of a read by the number of its groups.
pub(crate) fn state_of(groups: usize) -> ReadState
    ensures { state_number result ≡ state_of groups }
{
    match groups {
        0 => ReadState::Unmapped,
        1 => ReadState::Single,
        _ => ReadState::Multiple,
    }
}

// The number of a state.
pub fn state_number(state: ReadState) -> u64
    ensures { result ≡ state_number state }
{
    match state {
        ReadState::NotRequested => 0,
        ReadState::Ineligible => 1,
        ReadState::Indeterminate => 2,
        ReadState::Unmapped => 3,
        ReadState::Single => 4,
        ReadState::Multiple => 5,
    }
}
