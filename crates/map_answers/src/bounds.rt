// The bounds of a read's length and of the limit.
ghost use Rattle.std.specs.Prelude.{◌≡◌};
ghost use Rattle.map_answers.specs.Bounds.{length_right, limit_right};

pub const MAX_READ: usize = 65535;

pub const MAX_LIMIT: u64 = 10000000;

// Whether a read is within its bound: refusal 7 where it is not.
pub fn length_right(read: &[u8]) -> bool
    ensures { result ≡ length_right read.now }
{
    read.len() <= MAX_READ
}

// Whether a limit is within its bounds: refusal 9 where it is not.
pub fn limit_right(limit: u64) -> bool
    ensures { result ≡ limit_right limit }
{
    (1..=MAX_LIMIT).contains(&limit)
}
