// The key of a seed, computed afresh and rolled on by one base, for a sequence as it lies on a strand.
ghost use Rattle.std.specs.Prelude.{◌≡◌, ◌+◌, ◌-◌, ◌^◌, ◌<◌};
ghost use Rattle.bases.specs.Base.{Table};
ghost use Rattle.bases.specs.Read.{oriented};
ghost use Rattle.index_seeds.specs.Window.{window_of};
ghost use Rattle.index_seeds.specs.Key.{key_of, max_seed, SeedIn, KeyBegun, KeyHeld};

use bases::strand::oriented_code;

// 4 to the power n.
pub fn power(n: usize) -> u64
    requires { n < max_seed }
    ensures { result ≡ 4 ^ n }
{
    4u64.pow(n as u32)
}

// The key of the q bases at a start, from the key of the first `done` of them.
pub(crate) fn key_from(
    table: &[u16; 256],
    sequence: &[u8],
    strand: u64,
    q: usize,
    start: usize,
    done: usize,
    begun: u64,
) -> u64
    requires table { Table table.now }
    requires seed_in { SeedIn sequence.now q start }
    requires key_begun { KeyBegun (oriented strand sequence.now) q start done begun }
    ensures { result ≡ key_of (window_of (oriented strand sequence.now) start q) }
{
    let mut key = begun;
    for i in done..q {
        let code = oriented_code(table, sequence, strand, start + i);
        key = key * 4 + code;
    }
    key
}

// The key of the q bases at a start.
pub fn key_at(table: &[u16; 256], sequence: &[u8], strand: u64, q: usize, start: usize) -> u64
    requires table { Table table.now }
    requires seed_in { SeedIn sequence.now q start }
    ensures { result ≡ key_of (window_of (oriented strand sequence.now) start q) }
{
    key_from(table, sequence, strand, q, start, 0, 0)
}

// From the key at a start to the key at the next one; high is 4 to the power q - 1, what the first digit counts.
pub fn key_next(
    table: &[u16; 256],
    sequence: &[u8],
    strand: u64,
    q: usize,
    start: usize,
    high: u64,
    key: u64,
) -> u64
    requires table { Table table.now }
    requires seed_in { SeedIn sequence.now q (start + 1) }
    requires key_held { KeyHeld (oriented strand sequence.now) q start high key }
    ensures { result ≡ key_of (window_of (oriented strand sequence.now) (start + 1) q) }
{
    let first = oriented_code(table, sequence, strand, start);
    let last = oriented_code(table, sequence, strand, start + q);
    (key - first * high) * 4 + last
}

// The key at a start, from the key at the one before it; at the first start it is the key itself.
pub fn key_on(
    table: &[u16; 256],
    sequence: &[u8],
    q: usize,
    start: usize,
    high: u64,
    key: u64,
) -> u64
    requires table { Table table.now }
    requires seed_in { SeedIn sequence.now q start }
    requires key_held { KeyHeld sequence.now q (start - 1) high key }
    ensures { result ≡ key_of (window_of sequence.now start q) }
{
    if start == 0 {
        return key;
    }
    key_next(table, sequence, 0, q, start - 1, high, key)
}
