// Random schedules of many profiles, each compared with a sorted map: a line a profile.
use std::io;
use trial::driver;
use trial::profile::{self, Profile};
use trial::world::Tally;

// The seed of the first profile's schedule; those of the others follow.
const SEED: u64 = 88172645463325252;

fn print_list(rt: &impl Print, list: &[u64]) -> io::Result<()> {
    for number in list {
        print!(rt; " {number}")?;
    }
    Ok(())
}

fn print_tally(rt: &impl Print, tally: Tally) -> io::Result<()> {
    print!(rt; ": steps {}, decided {}", tally.steps, tally.decided)?;
    print!(rt;
        ", answers compared {}, wrong {}",
        tally.compared, tally.wrong
    )?;
    print!(rt; "; outcomes 0 to 8:")?;
    print_list(rt, &tally.outcomes[..9])?;
    print!(rt; "; refused by 4 to 15:")?;
    print_list(rt, &tally.refused[4..])?;
    print!(rt; "; aborts 1 to 8:")?;
    print_list(rt, &tally.reasons[1..9])?;
    print!(rt; "; servers added, closed, removed:")?;
    print_list(rt, &tally.done[8..11])?;
    println!(rt)
}

// The schedules of all profiles, and all their steps.
pub fn report(rt: &impl Print, memory: &mut [u8]) -> io::Result<()> {
    let mut steps: u64 = 0;
    let mut seed = SEED;
    for p in profile::all() {
        let tally = driver::tried(memory, p, seed);
        print!(rt; "{}", p.name)?;
        print_tally(rt, tally)?;
        steps = steps.wrapping_add(tally.steps);
        seed = seed.wrapping_add(1);
    }
    println!(rt; "{steps} steps")
}
