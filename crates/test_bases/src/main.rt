// Writes code and complement of every byte, and then what is decided of each read of standard input.
// A line there: the lowest quality letter that passes, the letter of quality 0, '+' or '-' for whether qualities are
// present, the bases, a space, the qualities (cases.py writes the lines, and what is expected of them).
#![tactic(auto)]

ghost use Rattle.std.specs.Prelude.{◌≤◌, length};

use promises::refusal::Refusal;
use test_cases::reading::read_full;
use test_cases::writing::{put, put_line, put_number};

fn put_byte(rt: &impl Print, b: u8) {
    put_number(rt, b"", b as u64);
    put_number(rt, b" ", bases::base::code(b));
    put_line(rt, b" ", bases::base::complement(b) as u64);
}

fn put_bytes(rt: &impl Print) {
    for b in 0..=255u8 {
        put_byte(rt, b);
    }
}

// Where b stands first from a place on, or the end.
fn find(s: &[u8], from: usize, b: u8) -> usize
    requires { from ≤ length s.now }
    ensures { (from ≤ result) × (result ≤ length s.now) }
{
    match s[from..].iter().position(|x| *x == b) {
        Some(i) => from + i,
        None => s.len(),
    }
}

// One place further, but not past the end.
fn behind(place: usize, end: usize) -> usize
    requires { place ≤ end }
    ensures { result ≤ end }
{
    if place < end { place + 1 } else { end }
}

fn put_answer(rt: &impl Print, judged: Result<bool, Refusal>) {
    match judged {
        Ok(true) => put(rt, b"eligible\n"),
        Ok(false) => put(rt, b"ineligible\n"),
        Err(refusal) => put_line(rt, b"refused ", refusal.number()),
    }
}

// Judges the read of one line.
fn judge_line(rt: &impl Print, line: &[u8]) {
    if line.len() < 3 {
        return;
    }
    let lowest = line[0];
    let offset = line[1];
    if lowest < offset {
        return;
    }
    let space = find(line, 3, b' ');
    let start = behind(space, line.len());
    let read = &line[3..space];
    let qualities = &line[start..];
    put_answer(
        rt,
        bases::eligibility::judge_read(read, qualities, line[2] == b'+', lowest - offset, offset),
    );
}

fn judge_lines(rt: &impl Print, s: &[u8]) {
    for line in s.split(|b| *b == b'\n') {
        judge_line(rt, line);
    }
}

fn main(rt: HostRuntime) {
    put_bytes(&rt);
    let mut buffer = [0u8; 65536];
    let mut input = rt.stdin();
    let n = read_full(&mut input, &mut buffer);
    judge_lines(&rt, &buffer[..n]);
}
