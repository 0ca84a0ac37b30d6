// Bytes and numbers written behind the bytes of an output.
#![tactic(auto)]

ghost use Rattle.std.specs.Prelude.{◌+◌, ◌≤◌, length};
ghost use Rattle.catch_text.specs.Text.{decimal};
ghost use Rattle.catch_text.specs.Writing.{Adds};

// Writes bytes.
pub fn put_bytes(out: &mut [u8], at: usize, bytes: &[u8]) -> usize
    requires { at + length bytes.now ≤ length out.old }
    ensures { Adds bytes.now out.old at out.new result }
{
    let end = at + bytes.len();
    out[at..end].copy_from_slice(bytes);
    end
}

// Writes a number in decimal: the digits of its tenth, then its last digit.
pub fn put_decimal(out: &mut [u8], at: usize, number: u64) -> usize
    requires { at + length (decimal number) ≤ length out.old }
    ensures { Adds (decimal number) out.old at out.new result }
{
    if number < 10 {
        out[at] = 48 + number as u8;
        return at + 1;
    }
    let end = put_decimal(out, at, number / 10);
    out[end] = 48 + (number % 10) as u8;
    end + 1
}
