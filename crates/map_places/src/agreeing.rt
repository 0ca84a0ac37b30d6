// How many bases of a sequence and of a read agree, from a place in each on.
ghost use Rattle.std.specs.Prelude.{◌≡◌};
ghost use Rattle.bases.specs.Read.{oriented};
ghost use Rattle.map_places.specs.Agreeing.{agreeing, stretch, Reach, Agreed};

use bases::strand::oriented_agrees;

// How many bases are compared at once.
const STRETCH: usize = 16;

// Whether a stretch of bases agrees. No base ends the comparison, so that all of them can be compared at once.
fn stretch_agrees(sequence: &[u8], at: usize, read: &[u8], strand: u64, from: usize) -> bool
    requires { Reach sequence.now at read.now from stretch }
    ensures { result ≡ agreeing stretch sequence.now at (oriented strand read.now) from }
{
    let mut agree = true;
    for k in 0..STRETCH {
        agree = agree & oriented_agrees(sequence[at + k], read, strand, from + k);
    }
    agree
}

// How many bases agree in whole stretches, up to a bound.
fn whole_stretches(
    sequence: &[u8],
    at: usize,
    read: &[u8],
    strand: u64,
    from: usize,
    most: usize,
) -> usize
    requires { Reach sequence.now at read.now from most }
    ensures { Agreed sequence.now at (oriented strand read.now) from most result }
{
    let mut k: usize = 0;
    while STRETCH <= most - k {
        if !stretch_agrees(sequence, at + k, read, strand, from + k) {
            return k;
        }
        k += STRETCH;
    }
    k
}

// How many bases agree, up to a bound.
pub fn agreement(
    sequence: &[u8],
    at: usize,
    read: &[u8],
    strand: u64,
    from: usize,
    most: usize,
) -> usize
    requires { Reach sequence.now at read.now from most }
    ensures { Agreed sequence.now at (oriented strand read.now) from most result }
{
    let whole = whole_stretches(sequence, at, read, strand, from, most);
    for k in whole..most {
        if !oriented_agrees(sequence[at + k], read, strand, from + k) {
            return k;
        }
    }
    most
}
