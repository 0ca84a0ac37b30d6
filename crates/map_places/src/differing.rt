// Where a read differs from a sequence that it is laid at: hints that spare comparisons.
ghost use Rattle.map_places.specs.Place.{Laid, SaidToDiffer};

use crate::agreeing::agreement;
use bases::strand::oriented_agrees;
use buffers::least;

// How many bases are looked at for a first difference.
const MOST_BASES: usize = 64;

// Whether a read is seen to differ at a place of the sequence; where it is not, nothing is said.
pub fn differs_at(sequence: &[u8], start: usize, read: &[u8], strand: u64, place: usize) -> bool
    requires { Laid sequence.now start read.now }
    ensures { SaidToDiffer result sequence.now start read.now strand }
{
    if place < start {
        return false;
    }
    let i = place - start;
    if read.len() <= i {
        return false;
    }
    !oriented_agrees(sequence[place], read, strand, i)
}

// A place of the sequence where a read that does not stand there may differ: that of the first difference, or one behind the
// bases that were looked at.
pub fn place_of_doubt(sequence: &[u8], start: usize, read: &[u8], strand: u64) -> usize
    requires { Laid sequence.now start read.now }
{
    let most = least(read.len(), MOST_BASES);
    start + agreement(sequence, start, read, strand, 0, most)
}
