// One command of a case. Each begins with its code.
// 0: which list (0 to 2 the counters, 3 to 5 the columns, 6 all counters), the places from and to, and what they are set to.
// 1: a state: mode, remap, floor, limit; whether there is a last ordinal, and the ordinal; whether a read was
//    indeterminate; counts by role and state, reads by role, three totals.
// 2 to 5 are calls: 1 for the plain audit; how much is lent of the entries or rows, of the counters, of the columns. Then
// 2, opening: mode, remap, floor, limit.
// 3, fragment: ordinal and number of reads; for each of two reads role, whether qualities are present, how often its last
//    base comes again behind it, lengths of bases and qualities; then these four lists.
// 4, finish: nothing more.
// 5, rows of the targets: the targets now, or nothing for the targets of the case.
// Ordinals, number of reads, limit and what a list is set to have eight bytes; places, how often a base comes again, the
// counts of a state and what stands in a catalogue have two; all else has one. A count of a state from 32768 on stands for
// one as far below the greatest of 64 bits as it is below 65535.
ghost use Rattle.std.specs.Prelude.{◌≤◌, length};

use crate::lent::lend;
use catalogue::lent::LentCatalogue;
use index_columns::LentIndex;
use test_audit_io::desk::{Desk, with_state};
use test_audit_io::numbers::state_of;
use test_cases::reading::{at_most, eight, number};
use test_cases::writing::put;

// Sets numbers from a place on to a value.
fn fill(numbers: &mut [u64], from: usize, to: usize, value: u64) {
    let end = at_most(to, numbers.len());
    for i in from..end {
        numbers[i] = value;
    }
}

// Up to where a list is set: its own command and that of all counters reach it.
fn reach(which: u8, own: u8, to: usize) -> usize {
    if which == own || (which == 6 && own < 3) {
        to
    } else {
        0
    }
}

fn fill_counters(desk: Desk, which: u8, from: usize, to: usize, value: u64) -> Desk {
    let mut placements = desk.placements;
    fill(&mut placements, from, reach(which, 0, to), value);
    let mut singles = desk.singles;
    fill(&mut singles, from, reach(which, 1, to), value);
    let mut multi = desk.multi;
    fill(&mut multi, from, reach(which, 2, to), value);
    let mut left = desk;
    left.placements = placements;
    left.singles = singles;
    left.multi = multi;
    left
}

fn fill_columns(desk: Desk, which: u8, from: usize, to: usize, value: u64) -> Desk {
    let mut keys = desk.keys;
    fill(&mut keys, from, reach(which, 3, to), value);
    let mut ranks = desk.ranks;
    fill(&mut ranks, from, reach(which, 4, to), value);
    let mut positions = desk.positions;
    fill(&mut positions, from, reach(which, 5, to), value);
    let mut left = desk;
    left.keys = keys;
    left.ranks = ranks;
    left.positions = positions;
    left
}

fn fill_command(rt: &impl Print, desk: Desk, s: &[u8]) -> Desk {
    if s.len() < 14 {
        put(rt, b"short\n");
        return desk;
    }
    let which = s[1];
    let from = number(s, 2);
    let to = number(s, 4);
    let value = eight(s, 6);
    let left = fill_counters(desk, which, from, to, value);
    fill_columns(left, which, from, to, value)
}

fn state_command(rt: &impl Print, desk: Desk, s: &[u8]) -> Desk {
    if s.len() < 70 {
        put(rt, b"short\n");
        return desk;
    }
    let held = with_state(desk.held, state_of(s));
    let mut left = desk;
    left.held = held;
    left
}

// The call with all counters and columns, of which it lends as much as the command says.
fn call_command(rt: &impl Print, desk: Desk, catalogue: LentCatalogue<'_>, s: &[u8]) -> Desk
    requires { 9 ≤ length s.now }
{
    let mut placements = desk.placements;
    let mut singles = desk.singles;
    let mut multi = desk.multi;
    let keys = desk.keys;
    let ranks = desk.ranks;
    let positions = desk.positions;
    let before = desk.held;
    let held = lend(
        rt,
        &mut placements,
        &mut singles,
        &mut multi,
        LentIndex {
            keys: &keys,
            ranks: &ranks,
            positions: &positions,
        },
        catalogue,
        s,
        before,
    );
    Desk {
        placements,
        singles,
        multi,
        keys,
        ranks,
        positions,
        held,
    }
}

pub fn run_command(rt: &impl Print, desk: Desk, catalogue: LentCatalogue<'_>, s: &[u8]) -> Desk {
    if s.len() < 9 {
        put(rt, b"short\n");
        return desk;
    }
    let code = s[0];
    if code == 0 {
        return fill_command(rt, desk, s);
    }
    if code == 1 {
        return state_command(rt, desk, s);
    }
    call_command(rt, desk, catalogue, s)
}
