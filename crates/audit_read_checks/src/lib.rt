// The reads of a fragment checked: 7, and with remap on 14 to 16.
#![tactic(auto)]

ghost use Rattle.bases.specs.Read.{read_of};
ghost use Rattle.audit_read_checks.specs.Checks.{ReadChecked, ReadsChecked};

use audit_model::settings::{AuditInputMode, Settings};
use bases::eligibility::judge_read;
use map_answers::bounds::length_right;
use promises::refusal::Refusal;

// Which of two reads are searched.
#[derive(Clone, Copy)]
pub struct SearchedReads {
    pub first: bool,
    pub second: bool,
}

// Checks a read.
pub fn check_read(
    bases: &[u8],
    qualities: &[u8],
    present: bool,
    settings: Settings,
    offset: u8,
) -> Result<bool, Refusal>
    ensures { ReadChecked offset settings (read_of bases.now present qualities.now) result }
{
    if !length_right(bases) {
        return Err(Refusal::ReadLength);
    }
    if !settings.remap {
        return Ok(false);
    }
    judge_read(bases, qualities, present, settings.floor, offset)
}

// Checks the reads of a fragment: the first, and in a pair then the second.
pub fn check_reads(
    first: &[u8],
    first_qualities: &[u8],
    first_present: bool,
    second: &[u8],
    second_qualities: &[u8],
    second_present: bool,
    settings: Settings,
    offset: u8,
) -> Result<SearchedReads, Refusal>
    ensures { ReadsChecked offset settings (read_of first.now first_present first_qualities.now) (read_of second.now second_present second_qualities.now) result }
{
    let one = check_read(first, first_qualities, first_present, settings, offset)?;
    let AuditInputMode::PairedEnd = settings.mode else {
        return Ok(SearchedReads {
            first: one,
            second: false,
        });
    };
    let two = check_read(second, second_qualities, second_present, settings, offset)?;
    Ok(SearchedReads {
        first: one,
        second: two,
    })
}
