// The fields of lines, each written behind the bytes of an output.
#![tactic(auto)]

ghost use Rattle.std.specs.Prelude.{◌+◌, ◌≤◌, length};
ghost use Rattle.audit_model.specs.Settings.{role_number};
ghost use Rattle.audit_model.specs.Sheet.{status_word};
ghost use Rattle.audit_model.specs.Calls.{mapping_row};
ghost use Rattle.catch_text.specs.Text.{text, spaced};
ghost use Rattle.catch_fields.specs.Fields.{role_word, places_word, strand_word, total_words};
ghost use Rattle.catch_text.specs.Writing.{AddsAtMost};

use audit_model::settings::MateRole;
use audit_model::sheet::{PlacementTotals, Status};
use catch_text::{put_bytes, put_decimal};
use map_answers::answer::{Mapping, state_number};

// A role.
pub fn put_role(out: &mut [u8], at: usize, role: MateRole) -> usize
    requires { at + 2 ≤ length out.old }
    ensures { AddsAtMost 2 (role_word (role_number role)) out.old at out.new result }
{
    match role {
        MateRole::S => put_bytes(out, at, b"S"),
        MateRole::R1 => put_bytes(out, at, b"R1"),
        MateRole::R2 => put_bytes(out, at, b"R2"),
    }
}

// The number of a read's groups, or '-' where it was not told.
pub fn put_places(out: &mut [u8], at: usize, mapping: Mapping) -> usize
    requires { at + 20 ≤ length out.old }
    ensures { AddsAtMost 20 (places_word (mapping_row mapping)) out.old at out.new result }
{
    let state = mapping.state;
    if state_number(state) < 3 {
        return put_bytes(out, at, b"-");
    }
    put_decimal(out, at, mapping.groups as u64)
}

// A strand.
pub fn put_strand(out: &mut [u8], at: usize, strand: u64) -> usize
    requires { at + 1 ≤ length out.old }
    ensures { AddsAtMost 1 (strand_word strand) out.old at out.new result }
{
    if strand == 0 {
        return put_bytes(out, at, b"+");
    }
    put_bytes(out, at, b"-")
}

// A status.
pub fn put_status(out: &mut [u8], at: usize, status: Status) -> usize
    requires { at + 41 ≤ length out.old }
    ensures { AddsAtMost 41 (text (status_word status)) out.old at out.new result }
{
    match status {
        Status::Complete => put_bytes(out, at, b"placement_enumeration_complete"),
        Status::CandidateLimit => put_bytes(out, at, b"indeterminate_candidate_limit"),
        Status::RemapDisabled => put_bytes(out, at, b"unavailable_remap_disabled"),
        Status::ClosedUnsupported => {
            put_bytes(out, at, b"unavailable_closed_walk_audit_unsupported")
        }
    }
}

// Three totals, each behind a space.
pub fn put_totals(out: &mut [u8], at: usize, totals: Option<PlacementTotals>) -> usize
    requires { at + 63 ≤ length out.old }
    ensures { AddsAtMost 63 (spaced (total_words totals)) out.old at out.new result }
{
    match totals {
        None => put_bytes(out, at, b" - - -"),
        Some(t) => {
            let a = put_bytes(out, at, b" ");
            let b = put_decimal(out, a, t.placements);
            let c = put_bytes(out, b, b" ");
            let d = put_decimal(out, c, t.singles);
            let e = put_bytes(out, d, b" ");
            put_decimal(out, e, t.multi)
        }
    }
}
