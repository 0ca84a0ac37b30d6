// The lines of `catch`, each written behind the bytes of an output.
#![tactic(auto)]

ghost use Rattle.std.specs.Prelude.{◌+◌, ◌≤◌, length};
ghost use Rattle.audit_model.specs.Settings.{role_number};
ghost use Rattle.audit_model.specs.Calls.{mapping_row};
ghost use Rattle.catch_lines.specs.Lines.{line_room, refusal_line, read_line, group_line, count_line, target_line, run_line};
ghost use Rattle.catch_text.specs.Writing.{AddsAtMost};

use audit_model::settings::MateRole;
use audit_model::sheet::Shown;
use catch_fields::{put_places, put_role, put_status, put_strand, put_totals};
use catch_text::{put_bytes, put_decimal};
use map_answers::answer::{Mapping, state_number};
use promises::refusal::Numbered;

// E number.
pub fn put_refusal<E: Numbered>(out: &mut [u8], at: usize, refusal: E) -> usize
    requires { at + line_room ≤ length out.old }
    ensures { AddsAtMost line_room (refusal_line (E.its_number refusal)) out.old at out.new result }
{
    let a = put_bytes(out, at, b"E ");
    let b = put_decimal(out, a, refusal.number());
    put_bytes(out, b, b"\n")
}

// R ordinal, role, state, places.
pub fn put_read(out: &mut [u8], at: usize, ordinal: u64, role: MateRole, mapping: Mapping) -> usize
    requires { at + line_room ≤ length out.old }
    ensures { AddsAtMost line_room (read_line ordinal (role_number role) (mapping_row mapping)) out.old at out.new result }
{
    let state = mapping.state;
    let a = put_bytes(out, at, b"R ");
    let b = put_decimal(out, a, ordinal);
    let c = put_bytes(out, b, b" ");
    let d = put_role(out, c, role);
    let e = put_bytes(out, d, b" ");
    let f = put_decimal(out, e, state_number(state));
    let g = put_bytes(out, f, b" ");
    let h = put_places(out, g, mapping);
    put_bytes(out, h, b"\n")
}

// G identifier, start, end, strand.
pub fn put_group(out: &mut [u8], at: usize, name: &[u8], start: u64, end: u64, strand: u64) -> usize
    requires { at + length name.now + line_room ≤ length out.old }
    ensures { AddsAtMost (length name.now + line_room) (group_line name.now start end strand) out.old at out.new result }
{
    let a = put_bytes(out, at, b"G ");
    let b = put_bytes(out, a, name);
    let c = put_bytes(out, b, b" ");
    let d = put_decimal(out, c, start);
    let e = put_bytes(out, d, b" ");
    let f = put_decimal(out, e, end);
    let g = put_bytes(out, f, b" ");
    let h = put_strand(out, g, strand);
    put_bytes(out, h, b"\n")
}

// S role, state, count.
pub fn put_count(out: &mut [u8], at: usize, role: MateRole, state: u64, count: u64) -> usize
    requires { at + line_room ≤ length out.old }
    ensures { AddsAtMost line_room (count_line (role_number role) state count) out.old at out.new result }
{
    let a = put_bytes(out, at, b"S ");
    let b = put_role(out, a, role);
    let c = put_bytes(out, b, b" ");
    let d = put_decimal(out, c, state);
    let e = put_bytes(out, d, b" ");
    let f = put_decimal(out, e, count);
    put_bytes(out, f, b"\n")
}

// T identifier, placements, singles, multi, status.
pub fn put_target(out: &mut [u8], at: usize, name: &[u8], shown: Shown) -> usize
    requires { at + length name.now + line_room ≤ length out.old }
    ensures { AddsAtMost (length name.now + line_room) (target_line name.now shown) out.old at out.new result }
{
    let status = shown.status;
    let totals = shown.totals;
    let a = put_bytes(out, at, b"T ");
    let b = put_bytes(out, a, name);
    let c = put_totals(out, b, totals);
    let d = put_bytes(out, c, b" ");
    let e = put_status(out, d, status);
    put_bytes(out, e, b"\n")
}

// A status and the three totals.
pub fn put_run(out: &mut [u8], at: usize, shown: Shown) -> usize
    requires { at + line_room ≤ length out.old }
    ensures { AddsAtMost line_room (run_line shown) out.old at out.new result }
{
    let status = shown.status;
    let totals = shown.totals;
    let a = put_bytes(out, at, b"A ");
    let b = put_status(out, a, status);
    let c = put_totals(out, b, totals);
    put_bytes(out, c, b"\n")
}
