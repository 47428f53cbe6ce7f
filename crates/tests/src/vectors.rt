// Schedules that the arguments name, each run through what `stepshow` runs; what it prints is compared with the file named next.
use show::Show;
use std::fs::File;
use std::io::Read;
use std::rt::{Env, Files};
use std::{env, io};

// How far a schedule has been run, and whether all that was printed was expected.
#[derive(Clone, Copy)]
struct Run {
    show: Show,
    agrees: bool,
}

// Whether the bytes printed come next in the file; part is as many bytes, for what the file has.
fn comes_next<R: Read>(file: &mut R, printed: &[u8], part: &mut [u8]) -> bool {
    match file.read_exact(part) {
        Ok(()) => *printed == *part,
        Err(_) => false,
    }
}

fn turn<R: Read>(
    memory: &mut [u8],
    pairs: &mut [u8; 512],
    input: &mut R,
    expected: &mut R,
    run: Run,
) -> Run {
    let mut out = [0u8; 65536];
    let shown = show::turn(memory, pairs, input, &mut out, run.show);
    let n = shown.at;
    let mut room = [0u8; 65536];
    let as_expected = comes_next(expected, &out[..n], &mut room[..n]);
    Run {
        show: shown.show,
        agrees: run.agrees && as_expected,
    }
}

// Whether the file has no byte more. A read that fails counts as its end.
fn at_end<R: Read>(file: &mut R) -> bool {
    let mut byte = [0u8; 1];
    match file.read(&mut byte) {
        Ok(n) => n == 0,
        Err(_) => true,
    }
}

// The turns are counted, so that the loop ends.
fn agrees<R: Read>(
    memory: &mut [u8],
    pairs: &mut [u8; 512],
    input: &mut R,
    expected: &mut R,
) -> bool {
    let mut run = Run {
        show: Show::start(),
        agrees: true,
    };
    for _ in 0..1000000 {
        if show::is_ended(run.show) {
            return run.agrees && at_end(expected);
        }
        run = turn(memory, pairs, input, expected, run);
    }
    false
}

// The file of this name, if there is one.
fn open<R: Files>(rt: &R, name: Option<&String>) -> Option<R::File> {
    File::open(rt, name?.as_str()).ok()
}

// A schedule's line.
fn print_line(rt: &impl Print, name: &str, is_right: bool) -> io::Result<()> {
    let verdict = if is_right { "agrees" } else { "DIFFERS" };
    println!(rt; "{name} {verdict}")
}

// Whether the two files could be opened and agree.
fn both<R: Read + Drop>(
    memory: &mut [u8],
    pairs: &mut [u8; 512],
    input: Option<R>,
    expected: Option<R>,
) -> bool {
    match (input, expected) {
        (Some(mut input), Some(mut expected)) => agrees(memory, pairs, &mut input, &mut expected),
        _ => false,
    }
}

// One schedule by its two names, and its line; whether it agrees.
fn one<R: Files + Print>(
    rt: &R,
    memory: &mut [u8],
    pairs: &mut [u8; 512],
    names: &[String],
) -> io::Result<bool> {
    let input = open(rt, names.first());
    let expected = open(rt, names.get(1));
    let is_right = both(memory, pairs, input, expected);
    if let Some(name) = names.first() {
        print_line(rt, name.as_str(), is_right)?;
    }
    Ok(is_right)
}

// All schedules: each is named by two names, the last one by one if its other name is missing.
pub fn report<R: Files + Env + AllocGlobal + Print>(rt: &R, memory: &mut [u8]) -> io::Result<()> {
    let names: Vec<String> = env::args(rt)?.skip(1).collect(rt.alloc())?;
    let mut pairs = [0u8; 512];
    let mut right: u64 = 0;
    let mut named: u64 = 0;
    for two in names.chunks(2) {
        named = named.wrapping_add(1);
        if one(rt, memory, &mut pairs, two)? {
            right = right.wrapping_add(1);
        }
    }
    println!(rt; "{right} of {named} agree")
}
