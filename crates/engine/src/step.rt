// One step of a store, on any memory lent.
ghost use Rattle.std.specs.Prelude.{◌≡◌, [], ◌∷◌, ◌<◌, length};
ghost use Rattle.memory.specs.Word.{view};
ghost use Rattle.steps.specs.Steps.{short_output, step as rule};
ghost use Rattle.kinds.specs.Parts.{StoreIn};
ghost use Rattle.kinds.specs.Judge.{of_client};
ghost use Rattle.kinds.specs.Kinds.{Comes};
ghost use Rattle.engine.specs.Work.{LeavesLent};
ghost use Rattle.engine.specs.Step.{rule_of, outcome_of, words_after, Ruled, lent, as_taken, lent_output};
ghost use Rattle.engine.specs.Reached.{GoesOn};

use crate::operate::work;
use client::part::{OP_NUMBER, OP_VALUE};
use kinds::abort::give_up;
use kinds::apply::apply;
use kinds::change::change_servers;
use kinds::commit::commit;
use kinds::judge::field_of;
use kinds::life::{begin, give};
use kinds::loss::lose;
use kinds::prepare::prepare;
use kinds::refusal::{memory_refusal, refusal};
use kinds::sizes::head;
use steps::outcome::Outcome;
use steps::sizes::Sizes;
use steps::step::{Kind, Step};

// A step's kind, and the number of the operation that waits: numbers, as they stand in the step and in the client's part.
const WORK: u64 = 2;

const LIST: u64 = 7;

// "12: at work, output shorter than 16 times the count". The count may still be any number: nothing has judged it.
fn short_output(mem: &[u8], room: usize, sizes: Sizes, client: usize, kind: u64) -> bool
    requires { StoreIn sizes (length mem.now) × (kind ≡ 2 → client < sizes.clients) }
    ensures { result ≡ short_output kind room (of_client sizes (view mem.now) client) }
{
    if kind != WORK {
        return false;
    }
    if field_of(mem, sizes, client, OP_NUMBER) != LIST {
        return false;
    }
    ((room / 16) as u64) < field_of(mem, sizes, client, OP_VALUE)
}

// The rule of a step's kind. Only a list writes to the lent output.
fn by_kind(
    mem: &mut [u8],
    out: &mut [u8],
    sizes: Sizes,
    client: usize,
    step: Step,
    kind: Kind,
) -> Outcome
    requires { Ruled sizes mem.old (length out.old) client step kind }
    ensures comes { Comes sizes (rule_of sizes client step kind) mem.old result mem.new }
    ensures output { LeavesLent sizes (rule_of sizes client step kind) mem out }
{
    match kind {
        Kind::Begin => begin(mem, sizes, client),
        Kind::Give => give(mem, sizes, client, step),
        Kind::Work => work(mem, out, sizes, client),
        Kind::Commit => commit(mem, sizes, client),
        Kind::Prepare => prepare(mem, sizes, client, step.server as usize),
        Kind::Apply => apply(mem, sizes, client, step.server as usize),
        Kind::GiveUp => give_up(mem, sizes, client),
        Kind::Lost => lose(mem, sizes, client),
        Kind::Servers(change) => change_servers(mem, sizes, change, step.server as usize),
        Kind::Unknown => Outcome::Refused(4),
    }
}

// Refusals 4 to 9 and 11 to 15, then the rule.
fn in_store(mem: &mut [u8], out: &mut [u8], sizes: Sizes, step: Step) -> Outcome
    requires { StoreIn sizes (length mem.old) }
    ensures comes { Comes sizes (rule sizes step (length out.old)) mem.old result mem.new }
    ensures output { LeavesLent sizes (rule sizes step (length out.old)) mem out }
{
    if let Err(refused) = refusal(mem, sizes, step) {
        return Outcome::Refused(u64::from(refused));
    }
    let client = step.client as usize;
    if short_output(mem, out.len(), sizes, client, step.kind) {
        return Outcome::Refused(12);
    }
    by_kind(mem, out, sizes, client, step, Kind::from(step.kind))
}

// "A refused step returns the first number that holds and changes no byte". A list writes its pairs to `out`, which any other step leaves alone.
// Whatever steps had reached the store, this one with its outcome and its output goes on from there.
pub fn step(mem: &mut [u8], out: &mut [u8], step: Step) -> Outcome
    ensures value { result ≡ lent outcome_of mem out step }
    ensures words { view mem.new ≡ lent words_after mem out step }
    ensures output { view out.new ≡ lent_output mem out step }
    ensures reached { GoesOn mem.old (as_taken step out result ∷ []) mem.new }
{
    let bytes = mem.len();
    if bytes < 64 {
        return Outcome::Refused(1);
    }
    let sizes = head(mem);
    if let Err(refusal) = memory_refusal(bytes, sizes) {
        return Outcome::Refused(u64::from(refusal));
    }
    in_store(mem, out, sizes, step)
}
