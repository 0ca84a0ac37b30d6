// The lines of counts.
ghost use Rattle.std.specs.Prelude.{◌≡◌, ◌+◌, ◌*◌, ◌≤◌, length};
ghost use Rattle.audit_model.specs.Settings.{role_number};
ghost use Rattle.audit_model.specs.Sheet.{role_shown, counts_shown};
ghost use Rattle.catch_text.specs.Writing.{AddsAtMost};
ghost use Rattle.catch_sheet_lines.specs.Sheets.{count_lines};
ghost use Rattle.catch_sheet_lines.specs.Lent.{role_room, counts_room};

use audit_model::settings::{AuditInputMode, MateRole};
use audit_model::sheet::Sheet;
use catch_lines::put_count;

// The place in the table of the first count of a role.
fn first_count(role: MateRole) -> usize
    ensures { result ≡ 6 * role_number role }
{
    match role {
        MateRole::S => 0,
        MateRole::R1 => 6,
        MateRole::R2 => 12,
    }
}

// S for each state of a role that is shown.
fn put_states(out: &mut [u8], at: usize, sheet: Sheet, role: MateRole) -> usize
    requires { at + role_room ≤ length out.old }
    ensures { AddsAtMost role_room (count_lines (role_shown sheet (role_number role))) out.old at out.new result }
{
    let table = sheet.table;
    let first = first_count(role);
    if !sheet.remap {
        return put_count(out, at, role, 0, table[first]);
    }
    let a = put_count(out, at, role, 1, table[first + 1]);
    let b = put_count(out, a, role, 2, table[first + 2]);
    let c = put_count(out, b, role, 3, table[first + 3]);
    let d = put_count(out, c, role, 4, table[first + 4]);
    put_count(out, d, role, 5, table[first + 5])
}

// S for each count that is shown, by role, then state.
pub fn put_counts(out: &mut [u8], at: usize, sheet: Sheet) -> usize
    requires { at + counts_room ≤ length out.old }
    ensures { AddsAtMost counts_room (count_lines (counts_shown sheet)) out.old at out.new result }
{
    match sheet.mode {
        AuditInputMode::SingleEnd => put_states(out, at, sheet, MateRole::S),
        AuditInputMode::PairedEnd => {
            let a = put_states(out, at, sheet, MateRole::R1);
            put_states(out, a, sheet, MateRole::R2)
        }
    }
}
