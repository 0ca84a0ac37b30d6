// The reads of a fragment in the bytes of its command: bases and qualities of the first, then of the second.
ghost use Rattle.std.specs.Prelude.{◌≤◌, ◌≡◌, length};

use test_cases::reading::{number, part, part_end, whole_length, whole_read, wide};

// Where the bases of the first read end, and its qualities begin.
fn first_end(s: &[u8]) -> usize
    requires { 37 ≤ length s.now }
    ensures { result ≤ length s.now }
{
    part_end(s, 37, wide(s[29]))
}

fn second_start(s: &[u8]) -> usize
    requires { 37 ≤ length s.now }
    ensures { result ≤ length s.now }
{
    part_end(s, first_end(s), wide(s[30]))
}

fn second_end(s: &[u8]) -> usize
    requires { 37 ≤ length s.now }
    ensures { result ≤ length s.now }
{
    part_end(s, second_start(s), wide(s[35]))
}

pub fn first_length(s: &[u8]) -> usize
    requires { 37 ≤ length s.now }
    ensures { result ≤ 65536 }
{
    whole_length(part(s, 37, wide(s[29])), number(s, 27))
}

pub fn first_read(s: &[u8]) -> [u8; 65536]
    requires { 37 ≤ length s.now }
    ensures { 65536 ≡ length result }
{
    whole_read(part(s, 37, wide(s[29])), number(s, 27))
}

pub fn first_qualities(s: &[u8]) -> &[u8]
    requires { 37 ≤ length s.now }
{
    part(s, first_end(s), wide(s[30]))
}

pub fn second_length(s: &[u8]) -> usize
    requires { 37 ≤ length s.now }
    ensures { result ≤ 65536 }
{
    whole_length(part(s, second_start(s), wide(s[35])), number(s, 33))
}

pub fn second_read(s: &[u8]) -> [u8; 65536]
    requires { 37 ≤ length s.now }
    ensures { 65536 ≡ length result }
{
    whole_read(part(s, second_start(s), wide(s[35])), number(s, 33))
}

pub fn second_qualities(s: &[u8]) -> &[u8]
    requires { 37 ≤ length s.now }
{
    part(s, second_end(s), wide(s[36]))
}
