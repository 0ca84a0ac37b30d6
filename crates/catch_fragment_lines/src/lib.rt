// The lines of a fragment's answer: those of its reads, or its refusal.
#![tactic(auto)]

ghost use Rattle.std.specs.Prelude.{◌+◌, ◌≤◌, length};
ghost use Rattle.identifiers.specs.Lent.{lent_cut};
ghost use Rattle.audit_model.specs.Settings.{role_number};
ghost use Rattle.audit_model.specs.Calls.{mapping_row};
ghost use Rattle.catch_text.specs.Writing.{AddsAtMost};
ghost use Rattle.catch_sheet_lines.specs.Lent.{read_told, EntriesLent};
ghost use Rattle.catch_fragment_lines.specs.Answer.{lines_by, read_room, answer_room, AnswerLent};

use audit_model::calls::FragmentRows;
use audit_model::settings::MateRole;
use catch_lines::{put_read, put_refusal};
use catch_sheet_lines::groups::put_groups;
use map_answers::answer::Mapping;
use promises::refusal::Numbered;

// R of a read, and G for each of its groups, which stand at the front of the entries.
fn put_mate(
    out: &mut [u8],
    at: usize,
    identifiers: &[u8],
    ends: &[usize],
    entries: &[u64],
    ordinal: u64,
    role: MateRole,
    mapping: Mapping,
) -> usize
    requires { EntriesLent identifiers.now ends.now entries.now mapping.groups × (at + read_room mapping ≤ length out.old) }
    ensures { AddsAtMost (read_room mapping) (read_told (lent_cut identifiers.now ends.now) ordinal (role_number role) (mapping_row mapping) entries.now) out.old at out.new result }
{
    let a = put_read(out, at, ordinal, role, mapping);
    put_groups(out, a, identifiers, ends, entries, mapping.groups)
}

// The lines of an answer, each read's groups in a part of `width` numbers of the entries.
pub fn put_answer<E: Numbered>(
    out: &mut [u8],
    at: usize,
    identifiers: &[u8],
    ends: &[usize],
    entries: &[u64],
    width: usize,
    ordinal: u64,
    first_role: MateRole,
    second_role: MateRole,
    answer: Result<FragmentRows, E>,
) -> usize
    requires { AnswerLent identifiers.now ends.now entries.now width answer × (at + answer_room answer ≤ length out.old) }
    ensures { AddsAtMost (answer_room answer) (lines_by E.its_number (lent_cut identifiers.now ends.now) ordinal (role_number first_role) (role_number second_role) width answer entries.now)
        out.old at out.new result }
{
    match answer {
        Err(refusal) => put_refusal(out, at, refusal),
        Ok(FragmentRows::Single(mapping)) => put_mate(
            out,
            at,
            identifiers,
            ends,
            entries,
            ordinal,
            first_role,
            mapping,
        ),
        Ok(FragmentRows::Paired(mates)) => {
            let a = put_mate(
                out,
                at,
                identifiers,
                ends,
                entries,
                ordinal,
                first_role,
                mates.first,
            );
            put_mate(
                out,
                a,
                identifiers,
                ends,
                &entries[width..],
                ordinal,
                second_role,
                mates.second,
            )
        }
    }
}
