// The sheet of a finished audit written as numbers, and read back.
#![tactic(auto)]

ghost use Rattle.std.specs.Prelude.{◌≡◌, true, ◌+◌, ◌≤◌, length};
ghost use Rattle.buffers.specs.Placed.{placed};
ghost use Rattle.c_replies.specs.Replies.{Put};
ghost use Rattle.audit_model.specs.Calls.{sheet_by};
ghost use Rattle.c_sheet.specs.Sheet.{finish_length, finish_numbers, sheet_numbers, sheet_in, status_fits, is_sheet};

use audit_codes::{flag_number, mode_number, mode_of, status_of};
use audit_model::sheet::{PlacementTotals, Sheet};
use audit_sheet::showing::shown_with;
use audit_unitigs::write_shown;
use buffers::copy_numbers;
use c_state::eighteen;
use promises::refusal::Numbered;

// Writes a sheet from a place on.
fn put_sheet(numbers: &mut [u64], at: usize, sheet: Sheet)
    requires { at + 24 ≤ length numbers.old }
    ensures { numbers.new ≡ placed at (sheet_numbers sheet) numbers.old }
{
    let mode = sheet.mode;
    let table = sheet.table;
    let run = sheet.run;
    numbers[at] = mode_number(mode);
    numbers[at + 1] = flag_number(sheet.remap);
    copy_numbers(numbers, at + 2, &table);
    write_shown(numbers, at + 20, run);
}

// Writes the answer of `finish`, and returns its refusal.
pub fn put_finish<E: Numbered>(answer: &mut [u64], finished: Result<(), E>, sheet: Sheet) -> u64
    requires { finish_length ≤ length answer.old }
    ensures { Put finish_numbers (sheet_by E.its_number finished sheet) result answer.old answer.new }
{
    match finished {
        Err(refusal) => {
            let number = refusal.number();
            let zeros = [0u64; 24];
            answer[0] = number;
            copy_numbers(answer, 1, &zeros);
            number
        }
        Ok(()) => {
            answer[0] = 0;
            put_sheet(answer, 1, sheet);
            0
        }
    }
}

// Whether a run has a status: with remap off it is 2, else 0 or 1.
fn status_fits(status: u64, remap: u64) -> bool
    ensures { result ≡ status_fits status remap }
{
    if remap == 1 {
        return status <= 1;
    }
    status == 2
}

// Whether numbers are those of an accepted `finish`: 26 where they are not.
pub fn is_sheet(numbers: &[u64]) -> bool
    ensures { result ≡ is_sheet numbers.now }
{
    if numbers.len() != 25 {
        return false;
    }
    if numbers[0] != 0 {
        return false;
    }
    if 1 < numbers[1] {
        return false;
    }
    if 1 < numbers[2] {
        return false;
    }
    if !status_fits(numbers[21], numbers[2]) {
        return false;
    }
    if numbers[21] == 0 {
        return true;
    }
    if numbers[22] != 0 {
        return false;
    }
    if numbers[23] != 0 {
        return false;
    }
    numbers[24] == 0
}

// The sheet that numbers stand for.
pub fn sheet_of(numbers: &[u64]) -> Sheet
    requires { is_sheet numbers.now ≡ true }
    ensures { result ≡ sheet_in numbers.now }
{
    let totals = PlacementTotals {
        placements: numbers[22],
        singles: numbers[23],
        multi: numbers[24],
    };
    Sheet {
        mode: mode_of(numbers[1] as u8),
        remap: numbers[2] == 1,
        table: eighteen(numbers, 3),
        run: shown_with(status_of(numbers[21]), totals),
    }
}
