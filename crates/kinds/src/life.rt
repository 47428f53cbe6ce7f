// Steps that change only their client's part: begin, give.
ghost use Rattle.std.specs.Prelude.{length};
ghost use Rattle.client.specs.Life as Life;
ghost use Rattle.steps.specs.Steps.{begin, give};
ghost use Rattle.kinds.specs.Parts.{AtClient, InClient};
ghost use Rattle.kinds.specs.Kinds.{Comes};

use crate::whole::client_at;
use client::life;
use client::part::OPEN;
use steps::outcome::Outcome;
use steps::sizes::Sizes;
use steps::step::Step;

// A client's transaction begins (1), or has ended (0).
pub fn reset_at(mem: &mut [u8], sizes: Sizes, client: usize, phase: u64)
    requires { AtClient sizes (length mem.old) client }
    ensures { InClient sizes client (Life.reset phase) mem.old mem.new }
{
    let at = 8 * client_at(sizes, client);
    life::reset(&mut mem[at..], phase);
}

fn give_at(mem: &mut [u8], sizes: Sizes, client: usize, op: u64, key: u64, value: u64, server: u64)
    requires { AtClient sizes (length mem.old) client }
    ensures { InClient sizes client (Life.give_part op key value server) mem.old mem.new }
{
    let at = 8 * client_at(sizes, client);
    life::give(&mut mem[at..], op, key, value, server);
}

// 0 begin
pub fn begin(mem: &mut [u8], sizes: Sizes, client: usize) -> Outcome
    requires { AtClient sizes (length mem.old) client }
    ensures { Comes sizes (λ m. begin sizes m client) mem.old result mem.new }
{
    reset_at(mem, sizes, client, OPEN);
    Outcome::Done
}

// 1 give an operation
pub fn give(mem: &mut [u8], sizes: Sizes, client: usize, step: Step) -> Outcome
    requires { AtClient sizes (length mem.old) client }
    ensures { Comes sizes (λ m. give sizes m client step) mem.old result mem.new }
{
    give_at(
        mem,
        sizes,
        client,
        step.op,
        step.key,
        step.value,
        step.server,
    );
    Outcome::Done
}
