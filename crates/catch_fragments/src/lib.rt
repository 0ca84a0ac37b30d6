// Fragments read from the bytes that are there.
#![tactic(auto)]

ghost use Rattle.std.specs.Prelude.{length, ◌≡◌, ◌≤◌};
ghost use Rattle.catch_commands.specs.Commands.{read_fits, qualities_of};
ghost use Rattle.catch_fragments.specs.Telling.{ReadTold, PairTold, ReadsTold, FragmentTold};

use audit_codes::role_of;
use audit_model::settings::MateRole;
use catch_commands::{Unread, little_endian};

// Where a read stands: its bases, and behind them its qualities.
#[derive(Clone, Copy)]
pub struct ReadPlace {
    pub role: MateRole,
    pub present: bool,
    pub from: usize,
    pub middle: usize,
    pub end: usize,
}

// A fragment of `count` reads: the second stands for none where there is one, and both where there is none.
#[derive(Clone, Copy)]
pub struct FragmentHead {
    pub ordinal: u64,
    pub count: usize,
    pub first: ReadPlace,
    pub second: ReadPlace,
    pub end: usize,
}

// Whether a read has a role, a mark and no more bases than 4,096.
fn read_fits(role: u8, mark: u8, length: u64) -> bool
    ensures { result ≡ read_fits role mark length }
{
    if 2 < role {
        return false;
    }
    if 1 < mark {
        return false;
    }
    if 4096 < length {
        return false;
    }
    true
}

// How many qualities stand behind so many bases.
fn quality_count(mark: u8, count: usize) -> usize
    ensures { result ≡ qualities_of mark count }
{
    if mark == 1 {
        return count;
    }
    0
}

// A read with its code, from a place on.
pub fn read_read(bytes: &[u8], at: usize) -> Result<ReadPlace, Unread>
    requires { at ≤ length bytes.now }
    ensures { ReadTold bytes.now at result }
{
    let left = bytes.len() - at;
    if left < 1 {
        return Err(Unread::More);
    }
    if bytes[at] != 4 {
        return Err(Unread::Wrong);
    }
    if left < 7 {
        return Err(Unread::More);
    }
    let role = bytes[at + 1];
    let mark = bytes[at + 2];
    let length = little_endian(&bytes[at + 3..at + 7]);
    if !read_fits(role, mark, length) {
        return Err(Unread::Wrong);
    }
    let count = length as usize;
    let qualities = quality_count(mark, count);
    if left - 7 < count + qualities {
        return Err(Unread::More);
    }
    Ok(ReadPlace {
        role: role_of(role),
        present: mark == 1,
        from: at + 7,
        middle: at + 7 + count,
        end: at + 7 + count + qualities,
    })
}

// The second read of a pair, behind the first.
fn read_pair(bytes: &[u8], ordinal: u64, first: ReadPlace) -> Result<FragmentHead, Unread>
    requires { first.end ≤ length bytes.now }
    ensures { PairTold bytes.now ordinal first result }
{
    let second = read_read(bytes, first.end)?;
    Ok(FragmentHead {
        ordinal,
        count: 2,
        first,
        second,
        end: second.end,
    })
}

// One read or two, behind nine bytes.
fn read_reads(bytes: &[u8], ordinal: u64, count: usize) -> Result<FragmentHead, Unread>
    requires { (9 ≤ length bytes.now) × (1 ≤ count) × (count ≤ 2) }
    ensures { ReadsTold bytes.now ordinal count result }
{
    let first = read_read(bytes, 9)?;
    if count == 2 {
        return read_pair(bytes, ordinal, first);
    }
    Ok(FragmentHead {
        ordinal,
        count,
        first,
        second: first,
        end: first.end,
    })
}

// A whole fragment, behind 03.
pub fn read_fragment(bytes: &[u8]) -> Result<FragmentHead, Unread>
    ensures { FragmentTold bytes.now result }
{
    if bytes.len() < 9 {
        return Err(Unread::More);
    }
    let ordinal = little_endian(&bytes[0..8]);
    let count = bytes[8] as usize;
    if 2 < count {
        return Err(Unread::Wrong);
    }
    if count == 0 {
        let none = ReadPlace {
            role: MateRole::S,
            present: false,
            from: 9,
            middle: 9,
            end: 9,
        };
        return Ok(FragmentHead {
            ordinal,
            count,
            first: none,
            second: none,
            end: 9,
        });
    }
    read_reads(bytes, ordinal, count)
}
