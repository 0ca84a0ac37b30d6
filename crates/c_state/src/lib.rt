// The state of an audit written as numbers, and read back.
#![tactic(auto)]

ghost use Rattle.std.specs.Prelude.{◌≡◌, true, ◌+◌, ◌≤◌, ◌<◌, length};
ghost use Rattle.lists.specs.Cut.{window};
ghost use Rattle.buffers.specs.Placed.{placed};
ghost use Rattle.c_state.specs.Layout.{state_length, last_numbers, ledger_numbers, state_numbers, last_of, state_in, is_state};

use audit_codes::{flag_number, mode_number, mode_of};
use audit_ledger::Ledger;
use audit_model::settings::{AuditState, Settings};
use buffers::copy_numbers;

pub const STATE_LENGTH: usize = 32;

const STATE_LAYOUT: u64 = 1;

// Eighteen numbers from a place on.
pub fn eighteen(numbers: &[u64], at: usize) -> [u64; 18]
    requires { at + 18 ≤ length numbers.now }
    ensures { result ≡ window numbers.now at 18 }
{
    let mut found = [0u64; 18];
    copy_numbers(&mut found, 0, &numbers[at..at + 18]);
    found
}

// ---- written

fn put_last(numbers: &mut [u64], at: usize, last: Option<u64>)
    requires { at + 2 ≤ length numbers.old }
    ensures { numbers.new ≡ placed at (last_numbers last) numbers.old }
{
    match last {
        None => {
            numbers[at] = 0;
            numbers[at + 1] = 0;
        }
        Some(n) => {
            numbers[at] = 1;
            numbers[at + 1] = n;
        }
    }
}

fn put_ledger(numbers: &mut [u64], at: usize, ledger: Ledger)
    requires { at + 25 ≤ length numbers.old }
    ensures { numbers.new ≡ placed at (ledger_numbers ledger) numbers.old }
{
    let table = ledger.table;
    let reads = ledger.reads;
    copy_numbers(numbers, at, &table);
    copy_numbers(numbers, at + 18, &reads);
    numbers[at + 21] = ledger.placements;
    numbers[at + 22] = ledger.singles;
    numbers[at + 23] = ledger.multi;
    numbers[at + 24] = flag_number(ledger.indeterminate);
}

// Writes a state.
pub fn put_state(numbers: &mut [u64], state: AuditState)
    requires { length numbers.old ≡ state_length }
    ensures { numbers.new ≡ state_numbers state }
{
    let settings = state.settings;
    let mode = settings.mode;
    let last = state.last;
    let ledger = state.ledger;
    numbers[0] = STATE_LAYOUT;
    numbers[1] = mode_number(mode);
    numbers[2] = flag_number(settings.remap);
    numbers[3] = settings.floor as u64;
    numbers[4] = settings.limit;
    put_last(numbers, 5, last);
    put_ledger(numbers, 7, ledger);
}

// ---- read back

// Whether numbers are those of a state: 26 where they are not.
pub fn is_state(numbers: &[u64]) -> bool
    ensures { result ≡ is_state numbers.now }
{
    if numbers.len() != STATE_LENGTH {
        return false;
    }
    if numbers[0] != STATE_LAYOUT {
        return false;
    }
    if 1 < numbers[1] {
        return false;
    }
    if 1 < numbers[2] {
        return false;
    }
    if 255 < numbers[3] {
        return false;
    }
    if 1 < numbers[5] {
        return false;
    }
    if numbers[5] == 0 {
        if numbers[6] != 0 {
            return false;
        }
    }
    numbers[31] <= 1
}

fn last_of(flag: u64, ordinal: u64) -> Option<u64>
    ensures { result ≡ last_of flag ordinal }
{
    if flag == 0 {
        return None;
    }
    Some(ordinal)
}

fn settings_of(numbers: &[u64]) -> Settings
    requires { is_state numbers.now ≡ true }
    ensures { result ≡ (state_in numbers.now).settings }
{
    Settings {
        mode: mode_of(numbers[1] as u8),
        remap: numbers[2] == 1,
        floor: numbers[3] as u8,
        limit: numbers[4],
    }
}

fn ledger_of(numbers: &[u64]) -> Ledger
    requires { is_state numbers.now ≡ true }
    ensures { result ≡ (state_in numbers.now).ledger }
{
    Ledger {
        table: eighteen(numbers, 7),
        reads: [numbers[25], numbers[26], numbers[27]],
        placements: numbers[28],
        singles: numbers[29],
        multi: numbers[30],
        indeterminate: numbers[31] == 1,
    }
}

// The state that numbers stand for.
pub fn state_of(numbers: &[u64]) -> AuditState
    requires { is_state numbers.now ≡ true }
    ensures { result ≡ state_in numbers.now }
{
    AuditState {
        settings: settings_of(numbers),
        last: last_of(numbers[5], numbers[6]),
        ledger: ledger_of(numbers),
    }
}
