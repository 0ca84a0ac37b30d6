// The lines of groups that stand in entries.
ghost use Rattle.std.specs.Prelude.{◌+◌, ◌*◌, ◌≤◌, length};
ghost use Rattle.identifiers.specs.Lent.{lent_cut};
ghost use Rattle.catch_text.specs.Writing.{AddsAtMost};
ghost use Rattle.catch_sheet_lines.specs.Lent.{named_room, entry_line, entry_lines, EntryLent, EntriesLent};

use catch_lines::put_group;
use identifiers::sequences::sequence_at;

// G for the i-th entry.
fn put_entry(
    out: &mut [u8],
    at: usize,
    identifiers: &[u8],
    ends: &[usize],
    entries: &[u64],
    i: usize,
) -> usize
    requires { EntryLent identifiers.now ends.now entries.now i × (at + named_room ≤ length out.old) }
    ensures { AddsAtMost named_room (entry_line (lent_cut identifiers.now ends.now) entries.now i) out.old at out.new result }
{
    let k = i * 4;
    let place = entries[k] as usize;
    let name = sequence_at(identifiers, ends, place);
    put_group(
        out,
        at,
        name,
        entries[k + 1],
        entries[k + 2],
        entries[k + 3],
    )
}

// G for each of the first n entries.
pub fn put_groups(
    out: &mut [u8],
    at: usize,
    identifiers: &[u8],
    ends: &[usize],
    entries: &[u64],
    n: usize,
) -> usize
    requires { EntriesLent identifiers.now ends.now entries.now n × (at + n * named_room ≤ length out.old) }
    ensures { AddsAtMost (n * named_room) (entry_lines (lent_cut identifiers.now ends.now) n entries.now) out.old at out.new result }
{
    let mut p = at;
    for i in 0..n {
        p = put_entry(out, p, identifiers, ends, entries, i);
    }
    p
}
