// Audits a fragment, by the index or plain, and writes what the call answers and leaves.
use audit::fragment::{fragment, plain_fragment};
use audit_ledger::LentCounters;
use audit_model::calls::FragmentAudit;
use audit_model::settings::AuditState;
use catalogue::lent::LentCatalogue;
use index_columns::LentIndex;
use test_audit_io::answered::{put_counters, put_fragment, put_state};
use test_audit_io::numbers::FragmentHead;
use test_cases::writing::put_numbers;

fn put_audit(
    rt: &impl Print,
    audited: FragmentAudit,
    counters: LentCounters<'_>,
    entries: &[u64],
) -> AuditState {
    let answer = audited.answer;
    let left = audited.state;
    put_fragment(rt, answer);
    put_state(rt, left);
    put_counters(rt, counters);
    put_numbers(rt, b"entries", entries);
    left
}

pub fn run_fragment(
    rt: &impl Print,
    entries: &mut [u64],
    placements: &mut [u64],
    singles: &mut [u64],
    multi: &mut [u64],
    index: LentIndex<'_>,
    catalogue: LentCatalogue<'_>,
    first: &[u8],
    first_qualities: &[u8],
    second: &[u8],
    second_qualities: &[u8],
    head: FragmentHead,
    state: AuditState,
) -> AuditState {
    let first_role = head.first_role;
    let second_role = head.second_role;
    if head.plain {
        let audited = plain_fragment(
            entries,
            placements,
            singles,
            multi,
            catalogue,
            first,
            first_qualities,
            second,
            second_qualities,
            first_role,
            head.first_present,
            second_role,
            head.second_present,
            head.ordinal,
            head.count,
            state,
        );
        return put_audit(
            rt,
            audited,
            LentCounters {
                placements,
                singles,
                multi,
            },
            entries,
        );
    }
    let audited = fragment(
        entries,
        placements,
        singles,
        multi,
        index,
        catalogue,
        first,
        first_qualities,
        second,
        second_qualities,
        first_role,
        head.first_present,
        second_role,
        head.second_present,
        head.ordinal,
        head.count,
        state,
    );
    put_audit(
        rt,
        audited,
        LentCounters {
            placements,
            singles,
            multi,
        },
        entries,
    )
}
