// What the calls of an audit answer and leave, written as lines of numbers.
use audit_codes::{flag_number, mode_number, status_number};
use audit_ledger::{Ledger, LentCounters};
use audit_model::calls::FragmentRows;
use audit_model::settings::{AuditState, Settings};
use audit_model::sheet::{PlacementTotals, Sheet};
use promises::refusal::Numbered;
use test_cases::writing::{put, put_line, put_number, put_numbers};
use test_map_calls::answered::put_mapping;

fn put_settings(rt: &impl Print, settings: Settings) {
    let mode = settings.mode;
    let numbers = [
        mode_number(mode),
        flag_number(settings.remap),
        settings.floor as u64,
        settings.limit,
    ];
    put_numbers(rt, b"settings", &numbers);
}

fn put_ordinal(rt: &impl Print, last: Option<u64>) {
    match last {
        None => put(rt, b"last -\n"),
        Some(n) => put_line(rt, b"last ", n),
    }
}

fn put_ledger(rt: &impl Print, ledger: Ledger) {
    let table = ledger.table;
    let reads = ledger.reads;
    put_numbers(rt, b"table", &table);
    put_numbers(rt, b"reads", &reads);
    let totals = [
        ledger.placements,
        ledger.singles,
        ledger.multi,
        flag_number(ledger.indeterminate),
    ];
    put_numbers(rt, b"totals", &totals);
}

pub fn put_state(rt: &impl Print, state: AuditState) {
    let settings = state.settings;
    let last = state.last;
    let ledger = state.ledger;
    put_settings(rt, settings);
    put_ordinal(rt, last);
    put_ledger(rt, ledger);
}

pub fn put_counters(rt: &impl Print, counters: LentCounters<'_>) {
    put_numbers(rt, b"placements", counters.placements);
    put_numbers(rt, b"singles", counters.singles);
    put_numbers(rt, b"multi", counters.multi);
}

// The answer of a call, with the line of an accepted one.
pub fn put_call<E: Numbered>(rt: &impl Print, answer: Result<(), E>, accepted: &[u8]) {
    match answer {
        Err(refusal) => put_line(rt, b"refused ", refusal.number()),
        Ok(()) => put(rt, accepted),
    }
}

pub fn put_fragment<E: Numbered>(rt: &impl Print, answer: Result<FragmentRows, E>) {
    match answer {
        Err(refusal) => put_line(rt, b"refused ", refusal.number()),
        Ok(FragmentRows::Single(row)) => put_mapping(rt, row),
        Ok(FragmentRows::Paired(rows)) => {
            put_mapping(rt, rows.first);
            put_mapping(rt, rows.second);
        }
    }
}

fn put_totals(rt: &impl Print, totals: PlacementTotals) {
    let numbers = [totals.placements, totals.singles, totals.multi];
    put_numbers(rt, b"", &numbers);
}

pub fn put_sheet(rt: &impl Print, sheet: Sheet) {
    let mode = sheet.mode;
    let table = sheet.table;
    let run = sheet.run;
    let status = run.status;
    let totals = run.totals;
    put_number(rt, b"sheet ", mode_number(mode));
    put_number(rt, b" ", flag_number(sheet.remap));
    put_numbers(rt, b"", &table);
    put_number(rt, b"run ", status_number(status));
    match totals {
        None => put(rt, b" -\n"),
        Some(t) => put_totals(rt, t),
    }
}
