// Settings, states and heads of fragments read from bytes, and how much of a list is lent.
ghost use Rattle.std.specs.Prelude.{◌+◌, ◌<◌, ◌≤◌, ◌≡◌, length};

use audit_codes::{mode_of, role_of};
use audit_ledger::Ledger;
use audit_model::settings::{AuditState, MateRole, Settings};
use test_cases::reading::{at_most, eight, is_set, number, wide};

// The numbers of a fragment, and of its two reads, that are no lists.
#[derive(Clone, Copy)]
pub struct FragmentHead {
    pub plain: bool,
    pub ordinal: u64,
    pub count: usize,
    pub first_role: MateRole,
    pub first_present: bool,
    pub second_role: MateRole,
    pub second_present: bool,
}

// How much is lent of n numbers, by the byte at a place.
pub fn share(s: &[u8], at: usize, n: usize) -> usize
    requires { at < length s.now }
    ensures { result ≤ n }
{
    at_most(wide(s[at]), n)
}

// The number of two bytes at a place: from 32768 on the numbers up to the greatest of 64 bits.
fn near(s: &[u8], at: usize) -> u64
    requires { at + 1 < length s.now }
{
    let n = number(s, at);
    if n < 32768 {
        return n as u64;
    }
    u64::MAX - (65535 - n) as u64
}

// Mode, remap, floor, limit.
pub fn settings_of(s: &[u8], at: usize) -> Settings
    requires { at + 10 < length s.now }
{
    Settings {
        mode: mode_of(s[at]),
        remap: is_set(s[at + 1]),
        floor: s[at + 2],
        limit: eight(s, at + 3),
    }
}

fn last_of(s: &[u8], at: usize) -> Option<u64>
    requires { at + 8 < length s.now }
{
    if s[at] == 1 {
        return Some(eight(s, at + 1));
    }
    None
}

fn table_of(s: &[u8]) -> [u64; 18]
    requires { 36 ≤ length s.now }
    ensures { 18 ≡ length result }
{
    let mut table = [0u64; 18];
    for i in 0..18 {
        table[i] = near(s, i * 2);
    }
    table
}

// Counts by role and state, reads by role, three totals.
fn ledger_of(s: &[u8], indeterminate: bool) -> Ledger
    requires { 48 ≤ length s.now }
{
    Ledger {
        table: table_of(s),
        reads: [near(s, 36), near(s, 38), near(s, 40)],
        placements: near(s, 42),
        singles: near(s, 44),
        multi: near(s, 46),
        indeterminate,
    }
}

// A state, behind a code.
pub fn state_of(s: &[u8]) -> AuditState
    requires { 70 ≤ length s.now }
{
    AuditState {
        settings: settings_of(s, 1),
        last: last_of(s, 12),
        ledger: ledger_of(&s[22..], is_set(s[21])),
    }
}

// What a fragment has beside its lists.
pub fn head_of(s: &[u8]) -> FragmentHead
    requires { 37 ≤ length s.now }
{
    FragmentHead {
        plain: is_set(s[1]),
        ordinal: eight(s, 9),
        count: eight(s, 17) as usize,
        first_role: role_of(s[25]),
        first_present: is_set(s[26]),
        second_role: role_of(s[31]),
        second_present: is_set(s[32]),
    }
}
