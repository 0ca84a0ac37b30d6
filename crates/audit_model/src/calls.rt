// What the calls of an audit answer.
use crate::settings::AuditState;
use crate::sheet::Sheet;
use map_answers::answer::Mapping;
use promises::refusal::Refusal;

// An opening answers, and gives the state that a run starts from.
#[derive(Clone, Copy)]
pub struct Opening {
    pub answer: Result<(), Refusal>,
    pub state: AuditState,
}

// The reads of a pair.
#[derive(Clone, Copy)]
pub struct Mates {
    pub first: Mapping,
    pub second: Mapping,
}

// The rows of the reads of an accepted fragment.
#[derive(Clone, Copy)]
pub enum FragmentRows {
    Single(Mapping),
    Paired(Mates),
}

// A fragment call answers, and gives the state that the run goes on from.
#[derive(Clone, Copy)]
pub struct FragmentAudit {
    pub answer: Result<FragmentRows, Refusal>,
    pub state: AuditState,
}

// A finished audit answers, and gives its sheet, which is that of the all-zero state where it is refused.
#[derive(Clone, Copy)]
pub struct Finish {
    pub answer: Result<(), Refusal>,
    pub sheet: Sheet,
}
