// Opens an audit, by the index or plain, and writes what the call answers and leaves.
use audit::open::{open, plain_open};
use audit_ledger::LentCounters;
use audit_model::calls::Opening;
use audit_model::settings::{AuditState, Settings};
use catalogue::lent::LentCatalogue;
use index_columns::LentIndex;
use test_audit_io::answered::{put_call, put_counters, put_state};

fn put_opening(rt: &impl Print, opening: Opening, counters: LentCounters<'_>) -> AuditState {
    let answer = opening.answer;
    let state = opening.state;
    put_call(rt, answer, b"opened\n");
    put_state(rt, state);
    put_counters(rt, counters);
    state
}

pub fn run_open(
    rt: &impl Print,
    placements: &mut [u64],
    singles: &mut [u64],
    multi: &mut [u64],
    index: LentIndex<'_>,
    catalogue: LentCatalogue<'_>,
    plain: bool,
    settings: Settings,
) -> AuditState {
    if plain {
        let opening = plain_open(placements, singles, multi, catalogue, settings);
        return put_opening(
            rt,
            opening,
            LentCounters {
                placements,
                singles,
                multi,
            },
        );
    }
    let opening = open(placements, singles, multi, index, catalogue, settings);
    put_opening(
        rt,
        opening,
        LentCounters {
            placements,
            singles,
            multi,
        },
    )
}
