// Which reads are eligible for placement (`eligible_normalized_read` of the Rust, without its copy).
ghost use Rattle.std.specs.Prelude.{◌≡◌};
ghost use Rattle.bases.specs.Read.{letters, lent, read_of};
ghost use Rattle.bases.specs.Eligibility.{verdict_of, quality_test, qualities_test, given_test, eligibility};

use crate::base::{MARK, code_in, table};
use promises::refusal::Refusal;

// Whether a read is eligible by one quality byte.
fn judge_quality(q: u8, floor: u8, offset: u8) -> Result<bool, Refusal>
    ensures { verdict_of result ≡ quality_test floor offset q }
{
    if q < offset || 126 < q {
        return Err(Refusal::PhredByte);
    }
    Ok(floor <= q - offset)
}

// Whether a read is eligible by its qualities, from the left: the first byte that is outside or low decides.
fn judge_qualities(qualities: &[u8], floor: u8, offset: u8) -> Result<bool, Refusal>
    ensures { verdict_of result ≡ qualities_test floor offset qualities.now }
{
    for q in qualities {
        if !judge_quality(*q, floor, offset)? {
            return Ok(false);
        }
    }
    Ok(true)
}

// Whether every byte is a letter of ACGT in either case.
fn all_bases(bases: &[u8]) -> bool
    ensures { result ≡ letters bases.now }
{
    let table = table();
    bases.iter().all(|b| code_in(&table, *b) != MARK)
}

// Whether a read is eligible by its qualities where they are present.
fn judge_given(
    bases: &[u8],
    qualities: &[u8],
    present: bool,
    floor: u8,
    offset: u8,
) -> Result<bool, Refusal>
    ensures { verdict_of result ≡ given_test floor offset (lent present qualities.now) bases.now }
{
    if !present {
        return Ok(true);
    }
    if qualities.len() != bases.len() {
        return Err(Refusal::QualityLength);
    }
    judge_qualities(qualities, floor, offset)
}

// Judges a read, whether it is eligible or one of three refusals: its qualities first, and then its bases.
#[tactic(auto, unfolding(crate::specs::Eligibility::eligibility))]
pub fn judge_read(
    bases: &[u8],
    qualities: &[u8],
    present: bool,
    floor: u8,
    offset: u8,
) -> Result<bool, Refusal>
    ensures { verdict_of result ≡ eligibility floor offset (read_of bases.now present qualities.now) }
{
    if bases.is_empty() {
        return Err(Refusal::EmptyRead);
    }
    let qualified = judge_given(bases, qualities, present, floor, offset)?;
    Ok(qualified && all_bases(bases))
}
