ghost use Rattle.catalogue.specs.Catalogue.{lent_catalogue};
ghost use Rattle.audit_ledger.specs.Booking.{lent_counters};
ghost use Rattle.c_calls.specs.Calls.{AppliesNumbers};

use audit_ledger::LentCounters;
use c_calls::finish::apply_numbers;
use catalogue::lent::LentCatalogue;

// `audit_unitigs::apply_to_unitigs`; `sheet` is the answer of `finish`.
#[unsafe(no_mangle)]
pub extern "C" fn jekaumeo_apply_to_unitigs(
    rows: &mut [u64],
    placements: &[u64],
    singles: &[u64],
    multi: &[u64],
    audited_identifiers: &[u8],
    audited_identifier_ends: &[usize],
    audited_bases: &[u8],
    audited_base_ends: &[usize],
    audited_marks: &[u8],
    identifiers: &[u8],
    identifier_ends: &[usize],
    bases: &[u8],
    base_ends: &[usize],
    marks: &[u8],
    sheet: &[u64],
) -> u64
    ensures { AppliesNumbers (lent_catalogue audited_identifiers.now audited_identifier_ends.now audited_bases.now audited_base_ends.now audited_marks.now)
        (lent_catalogue identifiers.now identifier_ends.now bases.now base_ends.now marks.now)
        (lent_counters placements.now singles.now multi.now) sheet.now rows.old result rows.new }
{
    apply_numbers(
        rows,
        LentCounters {
            placements,
            singles,
            multi,
        },
        LentCatalogue {
            identifiers: audited_identifiers,
            identifier_ends: audited_identifier_ends,
            bases: audited_bases,
            base_ends: audited_base_ends,
            marks: audited_marks,
        },
        LentCatalogue {
            identifiers,
            identifier_ends,
            bases,
            base_ends,
            marks,
        },
        sheet,
    )
}
