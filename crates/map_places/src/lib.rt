// A read compared with a target base for base, as it lies on a strand.
#![tactic(auto)]

ghost use Rattle.std.specs.Prelude.{◌≡◌, true, ◌<◌, ◌≤◌, length};
ghost use Rattle.map_places.specs.Place.{Laid, stands, stands_to};

use bases::strand::oriented_agrees;

pub mod agreeing;
pub mod differing;
pub mod looking;

// How many bases are compared at once: enough for a comparison of many bases by one instruction.
const STRETCH: usize = 64;

// Whether the bases up to an end agree where those before a stretch do. No base ends the comparison of a stretch, so that
// all of them can be compared at once.
fn stretch_agrees(
    sequence: &[u8],
    start: usize,
    read: &[u8],
    strand: u64,
    from: usize,
    end: usize,
) -> bool
    requires laid { Laid sequence.now start read.now }
    requires from_le_end { (from ≤ end) × ((end ≤ length read.now) × (stands_to from sequence.now start read.now strand ≡ true)) }
    ensures { result ≡ stands_to end sequence.now start read.now strand }
{
    let mut agree = true;
    for i in from..end {
        agree = agree & oriented_agrees(sequence[start + i], read, strand, i);
    }
    agree
}

// Whether a read stands at a start of a sequence, which has capitals; the read has letters in either case.
pub fn stands_at(sequence: &[u8], start: usize, read: &[u8], strand: u64) -> bool
    requires { Laid sequence.now start read.now }
    ensures { result ≡ stands sequence.now start read.now strand }
{
    let mut i = 0;
    while STRETCH <= read.len() - i {
        if !stretch_agrees(sequence, start, read, strand, i, i + STRETCH) {
            return false;
        }
        i += STRETCH;
    }
    stretch_agrees(sequence, start, read, strand, i, read.len())
}
