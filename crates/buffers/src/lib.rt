// Parts of buffers written: four numbers, numbers copied, numbers set to zero; and the lesser of two numbers.
#![tactic(auto)]

ghost use Rattle.std.specs.Prelude.{◌≡◌, ◌∷◌, [], ◌+◌, ◌≤◌, min, length, replicate};
ghost use Rattle.buffers.specs.Placed.{placed};

// The lesser of two numbers.
pub fn least(a: usize, b: usize) -> usize
    ensures { result ≡ min a b }
{
    a.min(b)
}

// Writes four numbers from a place on.
pub fn write_four(buffer: &mut [u64], at: usize, a: u64, b: u64, c: u64, d: u64)
    requires { at + 4 ≤ length buffer.old }
    ensures { buffer.new ≡ placed at (a ∷ b ∷ c ∷ d ∷ []) buffer.old }
{
    buffer[at] = a;
    buffer[at + 1] = b;
    buffer[at + 2] = c;
    buffer[at + 3] = d;
}

// Copies numbers to a place.
pub fn copy_numbers(to: &mut [u64], at: usize, numbers: &[u64])
    requires { at + length numbers.now ≤ length to.old }
    ensures { to.new ≡ placed at numbers.now to.old }
{
    to[at..at + numbers.len()].copy_from_slice(numbers);
}

// Sets the first n numbers to zero.
pub fn clear(numbers: &mut [u64], n: usize)
    requires { n ≤ length numbers.old }
    ensures { numbers.new ≡ placed 0 (replicate n 0) numbers.old }
{
    numbers[..n].fill(0);
}
