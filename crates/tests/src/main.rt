// Cases tried by hand, schedules compared line by line, and random schedules of many profiles beside a plain map.
#![tactic(auto)]

mod cases;
mod random;
mod vectors;

use std::io;

fn main(rt: HostRuntime) -> io::Result<()> {
    let mut memory = show::fresh();
    cases::report(&rt, &mut memory)?;
    vectors::report(&rt, &mut memory)?;
    random::report(&rt, &mut memory)
}
