// Runs the streams of standard input, each through the loop of `catch`. cases.py writes them, and what is expected of them.
// A case: its length in two bytes, the low one first; in one byte each the length of the pieces that its stream is read in,
// 0 for 32,768, and the length of its name; its name; the stream. It is read from the bytes of the case.
#![tactic(auto)]

use catch_stream::run_stream;
use std::io;
use test_cases::reading::{case_end, part_end, read_full, room, wide};
use test_cases::writing::put;

// Runs a stream from its bytes.
fn run_bytes(rt: &impl Print, bytes: &[u8], piece: usize) {
    let mut input = bytes;
    let mut output = io::writer(rt);
    run_stream(&mut input, &mut output, piece);
}

fn piece_of(byte: u8) -> usize {
    if byte == 0 {
        return 32768;
    }
    wide(byte)
}

fn run_case(rt: &impl Print, s: &[u8]) {
    if s.len() < 2 {
        return put(rt, b"short\n");
    }
    let name = part_end(s, 2, wide(s[1]));
    put(rt, b"# ");
    put(rt, &s[2..name]);
    put(rt, b"\n");
    run_bytes(rt, &s[name..], piece_of(s[0]));
}

fn run_cases(rt: &impl Print, s: &[u8]) {
    let mut at = 0;
    while at + 1 < s.len() {
        let end = case_end(s, at);
        run_case(rt, &s[at + 2..end]);
        at = end;
    }
}

fn main(rt: HostRuntime) {
    let mut block = room();
    let mut input = rt.stdin();
    let n = read_full(&mut input, &mut block);
    run_cases(&rt, &block[0..n]);
}
