// Finishes an audit, by the index or plain, and writes what the call answers.
use audit::finish::{finish, plain_finish};
use audit_ledger::LentCounters;
use audit_model::calls::Finish;
use audit_model::settings::AuditState;
use audit_model::sheet::Sheet;
use catalogue::lent::LentCatalogue;
use index_columns::LentIndex;
use test_audit_io::answered::{put_call, put_sheet};

fn put_finish(rt: &impl Print, finished: Finish) -> Sheet {
    let answer = finished.answer;
    let sheet = finished.sheet;
    put_call(rt, answer, b"finished\n");
    put_sheet(rt, sheet);
    sheet
}

pub fn run_finish(
    rt: &impl Print,
    counters: LentCounters<'_>,
    index: LentIndex<'_>,
    catalogue: LentCatalogue<'_>,
    plain: bool,
    state: AuditState,
) -> Sheet {
    if plain {
        let finished = plain_finish(counters, catalogue, state);
        return put_finish(rt, finished);
    }
    let finished = finish(counters, index, catalogue, state);
    put_finish(rt, finished)
}
