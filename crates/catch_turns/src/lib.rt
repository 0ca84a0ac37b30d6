// What is done between two steps of a job: bytes read behind those at hand, and lines written.
#![tactic(auto)]

ghost use Rattle.std.specs.Prelude.{◌≡◌, ◌-◌, ◌≤◌, ◌<◌, min, length};
ghost use Rattle.catch_turns.specs.Turns.{AtHand, Kept, Refilled, Steps, Turned};

use buffers::least;
use catch_progress::Progress;
use std::io::{Read, Write};

// How many bytes were asked for, how many are at hand, and whether the input has ended or could not be read.
#[derive(Clone, Copy)]
pub struct Filled {
    pub asked: usize,
    pub end: usize,
    pub ended: bool,
    pub failed: bool,
}

// What is at hand behind a step, where the output ends, and how much of it was handed to `write`; or all is done.
#[derive(Clone, Copy)]
pub struct Turn {
    pub done: bool,
    pub from: usize,
    pub end: usize,
    pub ended: bool,
    pub at: usize,
    pub wrote: usize,
}

// Moves the bytes from one place up to another to the front, and tells how many there are.
fn shift(buffer: &mut [u8], from: usize, end: usize) -> usize
    requires { AtHand buffer.old from end }
    ensures { (result ≡ end - from) × Kept buffer.old from buffer.new result }
{
    buffer.copy_within(from..end, 0);
    end - from
}

// A piece has one byte at least.
fn some_piece(piece: usize) -> usize
    ensures { 1 ≤ result }
{
    if piece == 0 { 1 } else { piece }
}

// Moves the bytes at hand to the front, and reads up to `piece` bytes behind them, or one where it is 0.
fn refill<R: Read>(
    buffer: &mut [u8],
    from: usize,
    end: usize,
    input: &mut R,
    piece: usize,
) -> Filled
    requires { AtHand buffer.old from end × (end - from < length buffer.old) }
    ensures { Refilled buffer.old from end buffer.new result }
{
    let kept = shift(buffer, from, end);
    let upto = kept + least(buffer.len() - kept, some_piece(piece));
    let (n, failed) = match input.read(&mut buffer[kept..upto]) {
        Ok(n) => (n, false),
        Err(_) => (0, true),
    };
    Filled {
        asked: upto - kept,
        end: kept + n,
        ended: n == 0,
        failed,
    }
}

// Writes bytes, so that none are held back, and tells whether all were taken.
fn written<W: Write>(output: &mut W, bytes: &[u8]) -> bool {
    match output.write_all(bytes) {
        Ok(()) => output.flush().is_ok(),
        Err(_) => false,
    }
}

// What follows a step: on behind the bytes that it went, or the end, or more input. Output is written where the next step
// might lack room, and before more input is waited for.
pub fn follow<R: Read, W: Write>(
    buffer: &mut [u8],
    out: &[u8],
    at: usize,
    progress: Progress,
    from: usize,
    end: usize,
    ended: bool,
    input: &mut R,
    output: &mut W,
    piece: usize,
) -> Turn
    requires { Steps buffer.old out.now progress from end at }
    ensures { Turned buffer.old progress from end at ended buffer.new result }
{
    match progress {
        Progress::Ended => {
            written(output, &out[..at]);
            Turn {
                done: true,
                from,
                end,
                ended,
                at: 0,
                wrote: at,
            }
        }
        Progress::Went(n) => {
            let next = from + n;
            if at <= 32768 {
                return Turn {
                    done: false,
                    from: next,
                    end,
                    ended,
                    at,
                    wrote: 0,
                };
            }
            Turn {
                done: !written(output, &out[..at]),
                from: next,
                end,
                ended,
                at: 0,
                wrote: at,
            }
        }
        Progress::More => {
            if !written(output, &out[..at]) {
                return Turn {
                    done: true,
                    from,
                    end,
                    ended,
                    at: 0,
                    wrote: at,
                };
            }
            let filled = refill(buffer, from, end, input, piece);
            Turn {
                done: filled.failed,
                from: 0,
                end: filled.end,
                ended: filled.ended,
                at: 0,
                wrote: at,
            }
        }
    }
}
