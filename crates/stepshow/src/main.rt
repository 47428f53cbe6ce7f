// "Program `stepshow` reads the sizes (servers, slots, clients), then a step a line", and prints what comes of each.
#![tactic(auto)]

use show::Show;
use std::io::{Read, Write};

// Reads once, and prints what follows from it. What cannot be written is let go.
fn turn<R: Read, W: Write>(
    memory: &mut [u8],
    pairs: &mut [u8; 512],
    input: &mut R,
    output: &mut W,
    show: Show,
) -> Show {
    let mut out = [0u8; 65536];
    let shown = show::turn(memory, pairs, input, &mut out, show);
    let n = shown.at;
    let _ = output.write_all(&out[..n]);
    shown.show
}

// A proved loop has to end, so its turns are counted, up to a number that no run uses up.
fn run<R: Read, W: Write>(memory: &mut [u8], pairs: &mut [u8; 512], input: &mut R, output: &mut W) {
    let mut show = Show::start();
    for _ in 0..u64::MAX {
        if show::is_ended(show) {
            return;
        }
        show = turn(memory, pairs, input, output, show);
    }
}

fn main(rt: HostRuntime) {
    let mut memory = show::fresh();
    let mut pairs = [0u8; 512];
    run(&mut memory, &mut pairs, &mut rt.stdin(), &mut rt.stdout());
}
