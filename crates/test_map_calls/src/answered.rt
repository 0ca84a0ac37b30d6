// Answers of `map`, written.
use map_answers::answer::{Mapping, state_number};
use promises::refusal::Numbered;
use test_cases::writing::{put_line, put_numbers};

// State, number of groups and work counts.
pub fn put_mapping(rt: &impl Print, m: Mapping) {
    let work = m.work;
    let numbers = [
        state_number(m.state),
        m.groups as u64,
        work.lookups,
        work.hits,
        work.examined,
        work.comparisons,
        work.seen,
    ];
    put_numbers(rt, b"mapped", &numbers);
}

// An answer, and what the call leaves in the entries.
pub fn put_answer<E: Numbered>(rt: &impl Print, answer: Result<Mapping, E>, entries: &[u64]) {
    match answer {
        Err(refusal) => put_line(rt, b"refused ", refusal.number()),
        Ok(m) => put_mapping(rt, m),
    }
    put_numbers(rt, b"entries", entries);
}
