// 2 work: the waiting operation is walked over what the client has. It is answered, or the first thing lacking is fetched.
ghost use Rattle.std.specs.Prelude.{◌≡◌, [], ◌*◌, ◌≤◌, ◌<◌, length, get_or};
ghost use Rattle.memory.specs.Word.{view};
ghost use Rattle.client.specs.Layout.{op_number, ClientPart};
ghost use Rattle.client.specs.Part.{Did};
ghost use Rattle.client.specs.Lent.{InUse, used_in, OwnFits, own_list};
ghost use Rattle.client.specs.Bounds.{most_listed};
ghost use Rattle.client.specs.Enter.{enter_entries};
ghost use Rattle.change.specs.Single.{single_entries};
ghost use Rattle.walk.specs.Walk.{Ended};
ghost use Rattle.walk.specs.Stopped.{Stopped};
ghost use Rattle.walk.specs.declared.operation.Operation.TheVariants.{Read, Write};
ghost use Rattle.walk.specs.Found.{pairs_in};
ghost use Rattle.walk.specs.Operation.{operation_of};
ghost use Rattle.steps.specs.Output.{with_pairs};
ghost use Rattle.steps.specs.Steps.{work};
ghost use Rattle.kinds.specs.Parts.{AtClient};
ghost use Rattle.kinds.specs.Judge.{of_client};
ghost use Rattle.kinds.specs.Kinds.{Comes};
ghost use Rattle.engine.specs.Work.{entering, WaitingClient, RoomForList, NoPairs, EntersAll, ListsInto, LeavesLent};

use crate::walking::{list_at, look_at, single_at, waiting_at, walk_at};
use change::single::OneWrite;
use client::enter::{enter_used, enter_write, enter_writes};
use client::part::{OP_NUMBER, set_field};
use kinds::abort::abort;
use kinds::known::fit_to_work;
use kinds::lack::{fetch_meta, fetch_node, fetch_vector};
use kinds::whole::client_at;
use memory::write_words;
use steps::outcome::Outcome;
use steps::sizes::Sizes;
use walk::operation::{Operation, Query, Update};
use walk::walk::Stop;

// "otherwise it answers the operation, and only then do its writes enter the write set": no operation waits any more.
fn enter_answer(part: &mut [u8], own: &[u64], used: &[u64])
    requires { InUse used.now × OwnFits own.now × ClientPart part.old }
    ensures { Did (entering (used_in used.now) (own_list own.now)) part.old part.new }
{
    enter_used(part, used);
    enter_writes(part, own);
    set_field(part, OP_NUMBER, 0);
}

fn store_answer(mem: &mut [u8], sizes: Sizes, client: usize, own: &[u64], used: &[u64])
    requires { AtClient sizes (length mem.old) client × InUse used.now × OwnFits own.now }
    ensures { EntersAll sizes client used (own_list own.now) mem }
{
    let at = 8 * client_at(sizes, client);
    enter_answer(&mut mem[at..], own, used);
}

// The one write, if there is one.
fn enter_one(part: &mut [u8], write: Option<OneWrite>)
    requires { ClientPart part.old }
    ensures { Did (enter_entries (single_entries write)) part.old part.new }
{
    if let Some(w) = write {
        enter_write(part, w.number, w.node);
    }
}

// The same of an operation with one write or none.
fn enter_single(part: &mut [u8], write: Option<OneWrite>, used: &[u64])
    requires { InUse used.now × ClientPart part.old }
    ensures { Did (entering (used_in used.now) (single_entries write)) part.old part.new }
{
    enter_used(part, used);
    enter_one(part, write);
    set_field(part, OP_NUMBER, 0);
}

fn store_single(mem: &mut [u8], sizes: Sizes, client: usize, write: Option<OneWrite>, used: &[u64])
    requires { AtClient sizes (length mem.old) client × InUse used.now }
    ensures { EntersAll sizes client used (single_entries write) mem }
{
    let at = 8 * client_at(sizes, client);
    enter_single(&mut mem[at..], write, used);
}

// The same of an operation that only reads: nothing enters the write set.
fn enter_seen(part: &mut [u8], used: &[u64])
    requires { InUse used.now × ClientPart part.old }
    ensures { Did (entering (used_in used.now) []) part.old part.new }
{
    enter_used(part, used);
    set_field(part, OP_NUMBER, 0);
}

fn store_seen(mem: &mut [u8], sizes: Sizes, client: usize, used: &[u64])
    requires { AtClient sizes (length mem.old) client × InUse used.now }
    ensures { EntersAll sizes client used [] mem }
{
    let at = 8 * client_at(sizes, client);
    enter_seen(&mut mem[at..], used);
}

// A walk that ended before its answer.
fn unanswered(mem: &mut [u8], sizes: Sizes, client: usize, stop: Stop, used: &[u64]) -> Outcome
    requires waiting_client { WaitingClient sizes mem.old client }
    requires stopped { Stopped sizes.slots (of_client sizes (view mem.old) client) (Ended stop) used.now }
    ensures comes { Comes sizes (λ m. work sizes m client) mem.old result mem.new }
    ensures pairs { NoPairs sizes mem.old client }
{
    match stop {
        Stop::LacksMeta => fetch_meta(mem, sizes, client, used),
        Stop::LacksNode(name) => fetch_node(mem, sizes, client, name, used),
        Stop::LacksVector(s) => fetch_vector(mem, sizes, client, s as usize, used),
        Stop::Refused => Outcome::Refused(10),
        Stop::Aborts(reason) => abort(mem, sizes, client, reason, used),
    }
}

// Lookup, next and previous.
fn look(mem: &mut [u8], sizes: Sizes, client: usize, op: Query) -> Outcome
    requires waiting_client { WaitingClient sizes mem.old client }
    requires reads { operation_of (of_client sizes (view mem.old) client op_number) ≡ Read op }
    ensures comes { Comes sizes (λ m. work sizes m client) mem.old result mem.new }
    ensures pairs { NoPairs sizes mem.old client }
{
    let mut used = [0u64; 98];
    match look_at(mem, sizes, client, &mut used, op) {
        Err(stop) => unanswered(mem, sizes, client, stop, &used),
        Ok(answer) => {
            store_seen(mem, sizes, client, &used);
            Outcome::Answered(answer.a, answer.b)
        }
    }
}

// "written to a lent output of 16 bytes a pair, key first, lowest byte first"
fn put_pairs(out: &mut [u8], found: &[u64])
    requires found_bound { (get_or found.now 0 0 ≤ most_listed) × (2 * get_or found.now 0 0 < length found.now) }
    requires room { 16 * get_or found.now 0 0 ≤ length out.old }
    ensures { view out.new ≡ with_pairs (pairs_in found.now) (view out.old) }
{
    let n = found[0] as usize;
    write_words(out, 0, &found[1..2 * n + 1]);
}

// A list: its pairs go to the lent output.
fn list(mem: &mut [u8], out: &mut [u8], sizes: Sizes, client: usize) -> Outcome
    requires waiting_client { WaitingClient sizes mem.old client }
    requires lists { ListsInto sizes mem.old client out.old }
    ensures comes { Comes sizes (λ m. work sizes m client) mem.old result mem.new }
    ensures output { LeavesLent sizes (λ m. work sizes m client) mem out }
{
    let mut used = [0u64; 98];
    let mut found = [0u64; 65];
    match list_at(mem, sizes, client, &mut used, &mut found) {
        Err(stop) => unanswered(mem, sizes, client, stop, &used),
        Ok(answer) => {
            put_pairs(out, &found);
            store_seen(mem, sizes, client, &used);
            Outcome::Answered(answer.a, answer.b)
        }
    }
}

// An operation that writes many objects: it is walked anew, with a list of them.
fn change_many(mem: &mut [u8], sizes: Sizes, client: usize, op: Update) -> Outcome
    requires waiting_client { WaitingClient sizes mem.old client }
    requires writes { operation_of (of_client sizes (view mem.old) client op_number) ≡ Write op }
    ensures comes { Comes sizes (λ m. work sizes m client) mem.old result mem.new }
    ensures pairs { NoPairs sizes mem.old client }
{
    let mut own = [0u64; 681];
    let mut used = [0u64; 98];
    match walk_at(mem, sizes, client, &mut own, &mut used, op) {
        Err(stop) => unanswered(mem, sizes, client, stop, &used),
        Ok(answer) => {
            store_answer(mem, sizes, client, &own, &used);
            Outcome::Answered(answer.a, answer.b)
        }
    }
}

// Insert, delete and migrate: most write one object or none.
fn change(mem: &mut [u8], sizes: Sizes, client: usize, op: Update) -> Outcome
    requires waiting_client { WaitingClient sizes mem.old client }
    requires writes { operation_of (of_client sizes (view mem.old) client op_number) ≡ Write op }
    ensures comes { Comes sizes (λ m. work sizes m client) mem.old result mem.new }
    ensures pairs { NoPairs sizes mem.old client }
{
    let mut used = [0u64; 98];
    match single_at(mem, sizes, client, &mut used, op) {
        Err(stop) => unanswered(mem, sizes, client, stop, &used),
        Ok(None) => change_many(mem, sizes, client, op),
        Ok(Some(s)) => {
            store_single(mem, sizes, client, s.write, &used);
            Outcome::Answered(s.answer.a, s.answer.b)
        }
    }
}

// By the sort of the operation.
fn operate(mem: &mut [u8], out: &mut [u8], sizes: Sizes, client: usize) -> Outcome
    requires waiting_client { WaitingClient sizes mem.old client }
    requires room { RoomForList sizes mem.old client out.old }
    ensures comes { Comes sizes (λ m. work sizes m client) mem.old result mem.new }
    ensures output { LeavesLent sizes (λ m. work sizes m client) mem out }
{
    match waiting_at(mem, sizes, client) {
        Operation::Read(op) => look(mem, sizes, client, op),
        Operation::Listing => list(mem, out, sizes, client),
        Operation::Write(op) => change(mem, sizes, client, op),
        Operation::Unknown => Outcome::Refused(10),
    }
}

// The pairs of a list go to the lent output.
pub fn work(mem: &mut [u8], out: &mut [u8], sizes: Sizes, client: usize) -> Outcome
    requires at_client { AtClient sizes (length mem.old) client }
    requires waits { of_client sizes (view mem.old) client op_number ≡ 0 → ⊥ }
    requires room { RoomForList sizes mem.old client out.old }
    ensures comes { Comes sizes (λ m. work sizes m client) mem.old result mem.new }
    ensures output { LeavesLent sizes (λ m. work sizes m client) mem out }
{
    if !fit_to_work(mem, sizes, client) {
        return Outcome::Refused(10);
    }
    operate(mem, out, sizes, client)
}
