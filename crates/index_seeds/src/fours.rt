// The key of a seed of capitals, four bases at a time: much quicker than base by base.
ghost use Rattle.std.specs.Prelude.{◌≡◌, true, [], ◌∷◌, ◌*◌};
ghost use Rattle.bases.specs.Base.{Table};
ghost use Rattle.bases.specs.Read.{capitals};
ghost use Rattle.index_seeds.specs.Window.{window_of};
ghost use Rattle.index_seeds.specs.Key.{key_of, SeedIn, CapitalsAt, FoursIn};

use crate::keys::key_from;

// The key of four capitals. The code of a capital is a sum by its bits: one for 2, one for 4, two for 16. It is made eightfold
// for all four bytes of a word at once; the product then has the key from bit 27 on.
fn key_of_capitals(a: u64, b: u64, c: u64, d: u64) -> u64
    requires { capitals (a ∷ b ∷ c ∷ d ∷ []) ≡ true }
    ensures { result ≡ key_of (a ∷ b ∷ c ∷ d ∷ []) }
{
    let word = a + b * 256 + c * 65536 + d * 16777216;
    let codes = (word & 33686018) * 4 + (word & 67372036) * 2 + (word & 269488144);
    codes * 1074791425 / 134217728 % 256
}

// The key of the four bases at a place.
fn key_of_four(sequence: &[u8], at: usize) -> u64
    requires { CapitalsAt sequence.now at }
    ensures { result ≡ key_of (window_of sequence.now at 4) }
{
    let a = sequence[at] as u64;
    let b = sequence[at + 1] as u64;
    let c = sequence[at + 2] as u64;
    let d = sequence[at + 3] as u64;
    key_of_capitals(a, b, c, d)
}

// The key of the first `fours` times four bases of a seed.
fn key_of_fours(sequence: &[u8], q: usize, start: usize, fours: usize) -> u64
    requires seed_in { SeedIn sequence.now q start }
    requires fours_in { FoursIn sequence.now q fours }
    ensures { result ≡ key_of (window_of sequence.now start (4 * fours)) }
{
    let mut key: u64 = 0;
    for k in 0..fours {
        key = key * 256 + key_of_four(sequence, start + 4 * k);
    }
    key
}

// The key of the q bases at a start.
pub fn key_by_fours(table: &[u16; 256], sequence: &[u8], q: usize, start: usize) -> u64
    requires table { Table table.now }
    requires seed_in { SeedIn sequence.now q start }
    requires sequence_value { capitals sequence.now ≡ true }
    ensures { result ≡ key_of (window_of sequence.now start q) }
{
    let fours = q / 4;
    let begun = key_of_fours(sequence, q, start, fours);
    key_from(table, sequence, 0, q, start, 4 * fours, begun)
}
