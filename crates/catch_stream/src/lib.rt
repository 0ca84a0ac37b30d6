// A job read from a reader, and its lines written to a writer.
#![tactic(auto)]

ghost use Rattle.std.specs.Prelude.{◌≡◌, length};

use catch_state::new_job;
use catch_step::advance;
use catch_turns::follow;
use std::io::{Read, Write};

// A room of N values, all alike.
fn room<T: Copy, const N: usize>(value: T) -> [T; N]
    ensures { N ≡ length result }
{
    [value; N]
}

// Runs a job. Its input is read in pieces of at most `piece` bytes; what is written is out before more input is waited for.
pub fn run_stream<R: Read, W: Write>(input: &mut R, output: &mut W, piece: usize) {
    let mut buffer = room::<u8, 32768>(0);
    let mut out = room::<u8, 131072>(0);
    let mut identifiers = room::<u8, 4080>(0);
    let mut identifier_ends = [0usize; 16];
    let mut bases = room::<u8, 1024>(0);
    let mut base_ends = [0usize; 16];
    let mut marks = [0u8; 16];
    let mut ranked = room::<usize, 4096>(0);
    let mut keys = room::<u64, 1024>(0);
    let mut ranks = room::<u64, 1024>(0);
    let mut positions = room::<u64, 1024>(0);
    let mut placements = [0u64; 16];
    let mut singles = [0u64; 16];
    let mut multi = [0u64; 16];
    let mut entries = room::<u64, 1024>(0);
    let mut job = new_job();
    let mut from: usize = 0;
    let mut end: usize = 0;
    let mut ended = false;
    let mut at: usize = 0;
    'turns: for _ in 0..u64::MAX {
        let r = advance(
            &mut out,
            &mut identifiers,
            &mut identifier_ends,
            &mut bases,
            &mut base_ends,
            &mut marks,
            &mut ranked,
            &mut keys,
            &mut ranks,
            &mut positions,
            &mut placements,
            &mut singles,
            &mut multi,
            &mut entries,
            at,
            &buffer[from..end],
            ended,
            job,
        );
        let next = r.job;
        let step = r.advance;
        let progress = step.progress;
        let turn = follow(
            &mut buffer,
            &out,
            step.at,
            progress,
            from,
            end,
            ended,
            input,
            output,
            piece,
        );
        if turn.done {
            return;
        }
        job = next;
        from = turn.from;
        end = turn.end;
        ended = turn.ended;
        at = turn.at;
    }
}
