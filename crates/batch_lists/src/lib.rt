// Many fragments lent as lists: refusal 25, and a read by its place.
#![tactic(auto)]

ghost use Rattle.std.specs.Prelude.{◌≡◌, [], length, get_or, leb};
ghost use Rattle.lists.specs.Filter.{every};
ghost use Rattle.identifiers.specs.Lent.{lent_cut, EndsRight};
ghost use Rattle.batch_lists.specs.Lists.{lengths_fit, lists_fit, reads_in, lent_fragments};

use audit_model::settings::AuditState;
use audit_sheet::balance::sum_agrees;
use catalogue::bounds::ends_within;
use identifiers::sequences::sequence_at;
use promises::refusal::Refusal;

// The reads of fragments as they are lent: roles, bases with ends, and qualities with ends and a mark that tells whether a read has some.
#[derive(Clone, Copy)]
pub struct LentReads<'a> {
    pub roles: &'a [u8],
    pub bases: &'a [u8],
    pub base_ends: &'a [usize],
    pub marks: &'a [u8],
    pub qualities: &'a [u8],
    pub quality_ends: &'a [usize],
}

// A list of fragments answers, and gives the state that the run goes on from.
#[derive(Clone, Copy)]
pub struct FragmentsAudit {
    pub answer: Result<(), Refusal>,
    pub state: AuditState,
}

// Whether no byte is greater than one.
fn all_within(bytes: &[u8], most: u8) -> bool
    ensures { result ≡ every (λ b. leb b most) bytes.now }
{
    bytes.iter().all(|b| *b <= most)
}

// Whether the lists of reads have so many elements, and eight numbers for each row.
fn lengths_fit(reads: usize, bases: usize, marks: usize, qualities: usize, rows: usize) -> bool
    ensures { result ≡ lengths_fit reads bases marks qualities rows }
{
    bases == reads && marks == reads && qualities == reads && rows % 8 == 0 && rows / 8 == reads
}

// Whether the lists of fragments fit together, with so many numbers for rows: 25 where they do not.
pub fn lists_fit(ordinals: &[u64], counts: &[u64], reads: LentReads<'_>, rows: usize) -> bool
    ensures { result ≡ lists_fit (lent_fragments ordinals.now counts.now (reads_in reads.entry)) rows }
{
    counts.len() == ordinals.len()
        && sum_agrees(counts, reads.roles.len() as u64)
        && lengths_fit(
            reads.roles.len(),
            reads.base_ends.len(),
            reads.marks.len(),
            reads.quality_ends.len(),
            rows,
        )
        && ends_within(reads.base_ends, reads.bases.len())
        && ends_within(reads.quality_ends, reads.qualities.len())
        && all_within(reads.roles, 2)
        && all_within(reads.marks, 1)
}

// The sequence at a place, or an empty one behind the last.
pub fn sequence_or_none<'a, 'b>(bytes: &'a [u8], ends: &'b [usize], i: usize) -> &'a [u8]
    requires { EndsRight bytes.now ends.now }
    ensures { result.now ≡ get_or (lent_cut bytes.now ends.now) i [] }
{
    if i < ends.len() {
        return sequence_at(bytes, ends, i);
    }
    &bytes[..0]
}

// The byte at a place, or 0 behind the last.
pub fn byte_or_zero(bytes: &[u8], i: usize) -> u8
    ensures { result ≡ get_or bytes.now i 0 }
{
    if i < bytes.len() {
        return bytes[i];
    }
    0
}
