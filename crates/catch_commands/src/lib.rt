// Settings and targets of `catch` read from the bytes that are there: read, wrong, or more bytes are needed.
#![tactic(auto)]

ghost use Rattle.std.specs.Prelude.{◌≡◌, ◌≤◌, length};
ghost use Rattle.lists.specs.Filter.{every};
ghost use Rattle.catch_commands.specs.Operands.{little_endian};
ghost use Rattle.catch_commands.specs.Commands.{is_name_byte, target_fits};
ghost use Rattle.catch_commands.specs.Telling.{SettingsTold, TargetsTold};

use audit_codes::mode_of;
use audit_model::settings::Settings;

// Bytes of which nothing was read: they are wrong, or more of them are needed.
#[derive(Clone, Copy, Debug, PartialEq, Eq)]
pub enum Unread {
    Wrong,
    More,
}

// A target: its topology, and the lengths of its identifier and bases, which stand behind six bytes.
#[derive(Clone, Copy)]
pub struct TargetHead {
    pub topology: u8,
    pub name: usize,
    pub count: usize,
}

// The number that bytes stand for, the lowest first.
pub fn little_endian(bytes: &[u8]) -> u64
    requires { length bytes.now ≤ 8 }
    ensures { result ≡ little_endian bytes.now }
{
    let mut number = 0;
    for i in (0..bytes.len()).rev() {
        number = number * 256 + bytes[i] as u64;
    }
    number
}

// Settings, behind 01.
pub fn read_settings(bytes: &[u8]) -> Result<Settings, Unread>
    ensures { SettingsTold bytes.now result }
{
    if bytes.len() < 11 {
        return Err(Unread::More);
    }
    let mode = bytes[0];
    let remap = bytes[1];
    if 1 < mode {
        return Err(Unread::Wrong);
    }
    if 1 < remap {
        return Err(Unread::Wrong);
    }
    Ok(Settings {
        mode: mode_of(mode),
        remap: remap == 1,
        floor: bytes[2],
        limit: little_endian(&bytes[3..11]),
    })
}

// Whether every byte of an identifier is printable, and no space.
fn is_name(bytes: &[u8]) -> bool
    ensures { result ≡ every is_name_byte bytes.now }
{
    bytes.iter().all(|b| matches!(*b, b'!'..=b'~'))
}

// Whether a target may follow others of so many bases.
fn target_fits(topology: u8, name: usize, count: u64, targets: usize, held: usize) -> bool
    requires { held ≤ 1024 }
    ensures { result ≡ target_fits topology name count targets held }
{
    topology <= 1 && 1 <= name && targets < 16 && count <= 1024 - held as u64
}

// A target, behind 02, in a catalogue of so many targets and bases.
pub fn read_target(bytes: &[u8], targets: usize, held: usize) -> Result<TargetHead, Unread>
    requires { held ≤ 1024 }
    ensures { TargetsTold targets held bytes.now result }
{
    if bytes.len() < 6 {
        return Err(Unread::More);
    }
    let topology = bytes[0];
    let name = bytes[1] as usize;
    let count = little_endian(&bytes[2..6]);
    if !target_fits(topology, name, count, targets, held) {
        return Err(Unread::Wrong);
    }
    let count = count as usize;
    if bytes.len() - 6 < name + count {
        return Err(Unread::More);
    }
    if !is_name(&bytes[6..6 + name]) {
        return Err(Unread::Wrong);
    }
    Ok(TargetHead {
        topology,
        name,
        count,
    })
}
