// The fragments of a list audited one after the other, in a catalogue that was tested.
#![tactic(auto)]

ghost use Rattle.std.specs.Prelude.{◌+◌, ◌*◌, ◌≤◌, length};
ghost use Rattle.lists.specs.Cut.{window};
ghost use Rattle.index_model.specs.Index.{sequences_in};
ghost use Rattle.audit_ledger.specs.Booking.{counters_of, left_counters};
ghost use Rattle.audit_model.specs.Calls.{lent_held, lent_index};
ghost use Rattle.audit_observe_read.specs.Observed.{way_if};
ghost use Rattle.audit_tested.specs.Tested.{Tested};
ghost use Rattle.batch_lists.specs.Lists.{read_lists, fragment_lists, reads_in, lent_fragments, fragments_in};
ghost use Rattle.batch_lists.specs.Listed.{calls_of};
ghost use Rattle.batch_fragments.specs.Listed.{ReadsLent, ListsLent, call_at, FragmentListed, ListAudited};

use audit_codes::role_of;
use audit_model::settings::AuditState;
use audit_tested::audit_tested;
use batch_fragment_rows::write_fragment;
use batch_lists::{LentReads, byte_or_zero, sequence_or_none};
use index_columns::LentIndex;
use index_model::ranked::RankedTargets;

// Audits the i-th fragment, of `count` reads from a place on, with `width` numbers of the entries as its share, and writes its rows.
fn audit_listed(
    rows: &mut [u64],
    entries: &mut [u64],
    placements: &mut [u64],
    singles: &mut [u64],
    multi: &mut [u64],
    index: LentIndex<'_>,
    targets: RankedTargets<'_, '_>,
    reads: LentReads<'_>,
    i: usize,
    width: usize,
    at: usize,
    count: usize,
    ordinal: u64,
    indexed: bool,
    q: usize,
    offset: u8,
    state: AuditState,
) -> AuditState
    requires tested { Tested indexed q targets.bases.now targets.ends.now targets.ranked.now index.keys.now index.ranks.now index.positions.now state.settings
        (counters_of placements.old singles.old multi.old) }
    requires reads_lent { ReadsLent (read_lists reads.roles.now reads.bases.now reads.base_ends.now reads.marks.now reads.qualities.now reads.quality_ends.now)
        × ((width * (i + 1) ≤ length entries.old) × (8 * (at + count) ≤ length rows.old)) }
    ensures { FragmentListed offset (sequences_in targets.entry) (way_if indexed q) targets.entry.ranked.now (lent_held state placements.old singles.old multi.old)
        (call_at (lent_index indexed index.entry.keys.now index.entry.ranks.now index.entry.positions.now) (reads_in reads.entry) ordinal at count (window entries.old (width * i) width))
        (width * i) at result (left_counters placements.new singles.new multi.new) rows.old entries.old rows.new entries.new }
{
    let next = at + 1;
    let from = width * i;
    let to = from + width;
    let first = sequence_or_none(reads.bases, reads.base_ends, at);
    let first_qualities = sequence_or_none(reads.qualities, reads.quality_ends, at);
    let second = sequence_or_none(reads.bases, reads.base_ends, next);
    let second_qualities = sequence_or_none(reads.qualities, reads.quality_ends, next);
    let first_role = role_of(byte_or_zero(reads.roles, at));
    let second_role = role_of(byte_or_zero(reads.roles, next));
    let first_present = byte_or_zero(reads.marks, at) == 1;
    let second_present = byte_or_zero(reads.marks, next) == 1;
    let audit = audit_tested(
        &mut entries[from..to],
        placements,
        singles,
        multi,
        index,
        targets,
        first,
        first_qualities,
        second,
        second_qualities,
        first_role,
        first_present,
        second_role,
        second_present,
        ordinal,
        count,
        indexed,
        q,
        offset,
        state,
    );
    let answer = audit.answer;
    let after = audit.state;
    write_fragment(rows, at, count, answer);
    after
}

// Audits every fragment, each with `width` numbers of the entries, and writes the rows of all reads.
pub fn audit_list(
    rows: &mut [u64],
    entries: &mut [u64],
    placements: &mut [u64],
    singles: &mut [u64],
    multi: &mut [u64],
    index: LentIndex<'_>,
    targets: RankedTargets<'_, '_>,
    ordinals: &[u64],
    counts: &[u64],
    reads: LentReads<'_>,
    width: usize,
    indexed: bool,
    q: usize,
    offset: u8,
    state: AuditState,
) -> AuditState
    requires tested { Tested indexed q targets.bases.now targets.ends.now targets.ranked.now index.keys.now index.ranks.now index.positions.now state.settings
        (counters_of placements.old singles.old multi.old) }
    requires lists_lent { ListsLent (fragment_lists ordinals.now counts.now (read_lists reads.roles.now reads.bases.now reads.base_ends.now reads.marks.now reads.qualities.now reads.quality_ends.now))
        width rows.old entries.old }
    ensures { ListAudited offset (sequences_in targets.entry) (way_if indexed q) targets.entry.ranked.now (lent_held state placements.old singles.old multi.old)
        (calls_of (lent_index indexed index.entry.keys.now index.entry.ranks.now index.entry.positions.now) width entries.old
        (fragments_in (lent_fragments ordinals.now counts.now (reads_in reads.entry))))
        (width * length ordinals.now) result (left_counters placements.new singles.new multi.new) rows.new entries.old entries.new }
{
    let mut held = state;
    let mut at: usize = 0;
    for i in 0..ordinals.len() {
        let count = counts[i] as usize;
        held = audit_listed(
            rows,
            entries,
            placements,
            singles,
            multi,
            index,
            targets,
            reads,
            i,
            width,
            at,
            count,
            ordinals[i],
            indexed,
            q,
            offset,
            held,
        );
        at += count;
    }
    held
}
