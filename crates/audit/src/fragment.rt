// A fragment audited.
ghost use Rattle.std.specs.Prelude.{true};
ghost use Rattle.catalogue.specs.Catalogue.{catalogue_in};
ghost use Rattle.audit_ledger.specs.Booking.{left_counters};
ghost use Rattle.audit_model.specs.Settings.{audit_seed, audit_offset};
ghost use Rattle.audit_model.specs.Opening.{none};
ghost use Rattle.audit_model.specs.Calls.{lent_held, lent_index, lent_mate, fragment_of, Audits};

use audit_fragment::audit_fragment;
use audit_model::calls::FragmentAudit;
use audit_model::settings::{AUDIT_OFFSET, AUDIT_SEED, AuditState, MateRole};
use catalogue::lent::LentCatalogue;
use index_columns::LentIndex;

// Audits a fragment by the index: refused, or its rows, with its groups in the entries and its reads booked.
pub fn fragment(
    entries: &mut [u64],
    placements: &mut [u64],
    singles: &mut [u64],
    multi: &mut [u64],
    index: LentIndex<'_>,
    catalogue: LentCatalogue<'_>,
    first: &[u8],
    first_qualities: &[u8],
    second: &[u8],
    second_qualities: &[u8],
    first_role: MateRole,
    first_present: bool,
    second_role: MateRole,
    second_present: bool,
    ordinal: u64,
    count: usize,
    state: AuditState,
) -> FragmentAudit
    ensures { Audits audit_seed audit_offset (catalogue_in catalogue.entry) (lent_index true index.entry.keys.now index.entry.ranks.now index.entry.positions.now)
        (lent_held state placements.old singles.old multi.old)
        (fragment_of ordinal count (lent_mate first_role first.now first_present first_qualities.now) (lent_mate second_role second.now second_present second_qualities.now))
        entries.old result (left_counters placements.new singles.new multi.new) entries.new }
{
    audit_fragment(
        entries,
        placements,
        singles,
        multi,
        index,
        catalogue,
        first,
        first_qualities,
        second,
        second_qualities,
        first_role,
        first_present,
        second_role,
        second_present,
        ordinal,
        count,
        true,
        AUDIT_SEED,
        AUDIT_OFFSET,
        state,
    )
}

// Audits a fragment by comparing at every start.
pub fn plain_fragment(
    entries: &mut [u64],
    placements: &mut [u64],
    singles: &mut [u64],
    multi: &mut [u64],
    catalogue: LentCatalogue<'_>,
    first: &[u8],
    first_qualities: &[u8],
    second: &[u8],
    second_qualities: &[u8],
    first_role: MateRole,
    first_present: bool,
    second_role: MateRole,
    second_present: bool,
    ordinal: u64,
    count: usize,
    state: AuditState,
) -> FragmentAudit
    ensures { Audits audit_seed audit_offset (catalogue_in catalogue.entry) none
        (lent_held state placements.old singles.old multi.old)
        (fragment_of ordinal count (lent_mate first_role first.now first_present first_qualities.now) (lent_mate second_role second.now second_present second_qualities.now))
        entries.old result (left_counters placements.new singles.new multi.new) entries.new }
{
    let zero = [0u64; 1];
    let nothing = &zero[..0];
    audit_fragment(
        entries,
        placements,
        singles,
        multi,
        LentIndex {
            keys: nothing,
            ranks: nothing,
            positions: nothing,
        },
        catalogue,
        first,
        first_qualities,
        second,
        second_qualities,
        first_role,
        first_present,
        second_role,
        second_present,
        ordinal,
        count,
        false,
        AUDIT_SEED,
        AUDIT_OFFSET,
        state,
    )
}
