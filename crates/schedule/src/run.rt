// "A schedule is a lent list of step records, run front to back."
ghost use Rattle.std.specs.Prelude.{◌≡◌, [], ◌∷◌};
ghost use Rattle.engine.specs.Reached.{GoesOn};
ghost use Rattle.schedule.specs.Listed.{written_down, taken_on, Turns, TakesAll};

use engine::step::step;
use steps::outcome::Line;
use steps::step::Step;

// The three numbers of an outcome, as those of step i; without room for them they are left out.
fn note(outcomes: &mut [u64], i: usize, l: Line)
    ensures { outcomes.new ≡ written_down outcomes.old i l }
{
    if i < outcomes.len() / 3 {
        outcomes[3 * i] = l.outcome;
        outcomes[3 * i + 1] = l.a;
        outcomes[3 * i + 2] = l.b;
    }
}

// One step, by value, the i-th of a list, lent the output. Its outcome is written down, and its number returned. Whatever steps had reached the store, this one goes
// on from there.
pub fn turn(mem: &mut [u8], out: &mut [u8], outcomes: &mut [u64], i: usize, k: Step) -> u64
    ensures turns { Turns mem out outcomes i k result }
    ensures reached { GoesOn mem.old (taken_on mem.old out.old (k ∷ [])) mem.new }
{
    let o = step(mem, out, k);
    let l = Line::from(o);
    note(outcomes, i, l);
    l.outcome
}

// All steps, front to back, and their outcomes, three numbers a step; one output is lent to all of them. Whatever steps had reached the store, these
// go on from there.
pub fn run(mem: &mut [u8], out: &mut [u8], outcomes: &mut [u64], steps: &[Step])
    ensures { TakesAll mem out outcomes steps }
{
    for (i, step) in steps.iter().enumerate() {
        turn(mem, out, outcomes, i, *step);
    }
}
