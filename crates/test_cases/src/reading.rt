// Cases, and numbers of two or eight bytes in them, the low byte first.
ghost use Rattle.std.specs.Prelude.{◌+◌, ◌*◌, ◌<◌, ◌≤◌, ◌≡◌, length};

use std::io::Read;

pub fn at_most(n: usize, most: usize) -> usize
    ensures { result ≤ most }
{
    n.min(most)
}

pub fn is_set(b: u8) -> bool {
    b == 1
}

// A byte as a number.
pub fn wide(b: u8) -> usize
    ensures { result < 256 }
{
    b as usize
}

// The number of two bytes at a place.
pub fn number(s: &[u8], at: usize) -> usize
    requires { at + 1 < length s.now }
    ensures { result < 65536 }
{
    wide(s[at]) + wide(s[at + 1]) * 256
}

// Half a number of eight bytes.
fn half(s: &[u8], at: usize) -> usize
    requires { at + 3 < length s.now }
    ensures { result < 4294967296 }
{
    number(s, at) + number(s, at + 2) * 65536
}

// The number of eight bytes at a place.
pub fn eight(s: &[u8], at: usize) -> u64
    requires { at + 7 < length s.now }
{
    (half(s, at) + half(s, at + 4) * 4294967296) as u64
}

// Where a part of n bytes from a place on ends.
pub fn part_end(s: &[u8], from: usize, n: usize) -> usize
    requires { from ≤ length s.now }
    ensures { (from ≤ result) × (result ≤ length s.now) }
{
    from + at_most(n, s.len() - from)
}

// Reads until the block is full, the input ends or a read fails, and tells how many bytes stand at its front.
pub fn read_full<R: Read>(input: &mut R, block: &mut [u8]) -> usize
    ensures { result ≤ length block.new }
{
    let mut done = 0;
    while done < block.len() {
        match input.read(&mut block[done..]) {
            Ok(0) => return done,
            Ok(n) => done += n,
            Err(_) => return done,
        }
    }
    done
}

// Room for a block of standard input.
pub fn room() -> [u8; 393216]
    ensures { 393216 ≡ length result }
{
    [0u8; 393216]
}

// Where the case ends whose length stands in the two bytes at a place.
pub fn case_end(s: &[u8], at: usize) -> usize
    requires { at + 1 < length s.now }
    ensures { (at + 2 ≤ result) × (result ≤ length s.now) }
{
    part_end(s, at + 2, number(s, at))
}

// At most n bytes from a place on.
pub fn part(s: &[u8], from: usize, n: usize) -> &[u8]
    requires { from ≤ length s.now }
{
    &s[from..part_end(s, from, n)]
}

// How many bytes a read has: those written, and the last of them as often again as there are more.
pub fn whole_length(written: &[u8], more: usize) -> usize
    requires { more < 65536 }
    ensures { result ≤ 65536 }
{
    if written.is_empty() {
        return 0;
    }
    at_most(at_most(written.len(), 65536) + more, 65536)
}

// The bytes of such a read.
pub fn whole_read(written: &[u8], more: usize) -> [u8; 65536]
    requires { more < 65536 }
    ensures { 65536 ≡ length result }
{
    let mut read = [0u8; 65536];
    if written.is_empty() {
        return read;
    }
    let last = written.len() - 1;
    let n = whole_length(written, more);
    for i in 0..n {
        read[i] = written[at_most(i, last)];
    }
    read
}
