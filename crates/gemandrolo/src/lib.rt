// The store for programs in C and Rust: functions on numbers and lent slices. A slice is passed as a pointer and a length, so that no
// function asks anything of its caller but that the memory is there.
#![tactic(auto)]

ghost use Rattle.std.specs.Prelude.{◌≡◌, [], length};
ghost use Rattle.memory.specs.Word.{view};
ghost use Rattle.steps.specs.Refusal.{open_refusal};
ghost use Rattle.kinds.specs.Parts.{length_answer};
ghost use Rattle.engine.specs.Open.{opened_in};
ghost use Rattle.engine.specs.Step.{words_after, lent, lent_output};
ghost use Rattle.engine.specs.Reached.{Reached, GoesOn};
ghost use Rattle.schedule.specs.Listed.{TakesAll};
ghost use Rattle.gemandrolo.specs.Numbers.{sizes_of, step_of, bytes_of, numbers_of, one_taken};

use engine::open::open;
use engine::step::step;
use kinds::whole::length_for;
use schedule::run::run;
use steps::outcome::Line;
use steps::sizes::Sizes;
use steps::step::Step;

// "the length that given sizes call for is a public answer": in bytes, or 0 for sizes that are refused.
#[unsafe(no_mangle)]
pub extern "C" fn gemandrolo_length(servers: usize, slots: usize, clients: usize) -> usize
    ensures { result ≡ bytes_of (length_answer (sizes_of servers slots clients)) }
{
    let length = length_for(Sizes {
        servers,
        slots,
        clients,
    });
    length.unwrap_or(0)
}

// A new store in the memory lent: 0, or the number by which it is refused. No step has been taken in it.
#[unsafe(no_mangle)]
pub extern "C" fn gemandrolo_open(
    mem: &mut [u8],
    servers: usize,
    slots: usize,
    clients: usize,
) -> u64
    ensures value { result ≡ open_refusal (length mem.old) (sizes_of servers slots clients) }
    ensures words { view mem.new ≡ opened_in mem (sizes_of servers slots clients) }
    ensures reached { result ≡ 0 → Reached (sizes_of servers slots clients) [] mem.new }
{
    let opening = open(
        mem,
        Sizes {
            servers,
            slots,
            clients,
        },
    );
    match opening {
        Ok(()) => 0,
        Err(refusal) => u64::from(refusal),
    }
}

// One step: the number of its outcome; its a and b behind the references. A list writes its pairs to `out`, which any other step leaves alone; it may
// be empty. Whatever steps had reached the store, this one with its outcome and its output goes on from there.
#[unsafe(no_mangle)]
pub extern "C" fn gemandrolo_step(
    mem: &mut [u8],
    out: &mut [u8],
    kind: u64,
    client: u64,
    op: u64,
    key: u64,
    value: u64,
    server: u64,
    a: &mut u64,
    b: &mut u64,
) -> u64
    ensures value { result ≡ (numbers_of mem out (step_of kind client op key value server)).outcome }
    ensures a { a.new ≡ (numbers_of mem out (step_of kind client op key value server)).a }
    ensures b { b.new ≡ (numbers_of mem out (step_of kind client op key value server)).b }
    ensures words { view mem.new ≡ lent words_after mem out (step_of kind client op key value server) }
    ensures output { view out.new ≡ lent_output mem out (step_of kind client op key value server) }
    ensures reached { GoesOn mem.old (one_taken (step_of kind client op key value server) out result a b) mem.new }
{
    let outcome = step(
        mem,
        out,
        Step {
            kind,
            client,
            op,
            key,
            value,
            server,
        },
    );
    let l = Line::from(outcome);
    *a = l.a;
    *b = l.b;
    l.outcome
}

// A list of steps, run front to back; `out` is lent to all of them. The three numbers of each outcome stand in `outcomes`, as far as it has room.
#[unsafe(no_mangle)]
pub extern "C" fn gemandrolo_run(
    mem: &mut [u8],
    out: &mut [u8],
    steps: &[Step],
    outcomes: &mut [u64],
)
    ensures { TakesAll mem out outcomes steps }
{
    run(mem, out, outcomes, steps);
}
