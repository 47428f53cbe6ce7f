// "An abort unlocks everywhere and drops copies of all objects read (for a flag, its vector)".
ghost use Rattle.std.specs.Prelude.{◌<◌, length, []};
ghost use Rattle.memory.specs.Word.{view};
ghost use Rattle.client.specs.Lent.{InUse, used_in};
ghost use Rattle.client.specs.Life as Life;
ghost use Rattle.steps.specs.Steps.{abort};
ghost use Rattle.kinds.specs.Parts.{InWhole, InClient, AtClient};
ghost use Rattle.kinds.specs.Fits.{KnownAt, KnownClient};
ghost use Rattle.kinds.specs.Abort.{Freed, freeing, aborts, stops};
ghost use Rattle.kinds.specs.Kinds.{Comes};

use crate::findings::Fault;
use crate::fits::abort_fits;
use crate::judge::field_of;
use crate::locks::{Change, change_all};
use crate::whole::client_at;
use client::life;
use client::part::PREPARED;
use memory::bits;
use steps::outcome::Outcome;
use steps::sizes::Sizes;

// The locks at a server go, if the transaction is prepared there.
fn unlock_at(mem: &mut [u8], sizes: Sizes, client: usize, prepared: u64, server: usize)
    requires { KnownAt sizes mem.old client server }
    ensures { Freed sizes client prepared server (view mem.old) (view mem.new) }
{
    if bits::has(prepared, server as u32) {
        change_all(mem, sizes, client, server, Change::Unlock);
    }
}

// The locks at all servers at which the transaction is prepared.
pub fn unlock_everywhere(mem: &mut [u8], sizes: Sizes, client: usize)
    requires { KnownClient sizes mem.old client }
    ensures { InWhole sizes (freeing sizes client) mem.old mem.new }
{
    let prepared = field_of(mem, sizes, client, PREPARED);
    for s in 0..8 {
        unlock_at(mem, sizes, client, prepared, s);
    }
}

// Copies go and the transaction has ended.
fn end_at(mem: &mut [u8], sizes: Sizes, client: usize, used: &[u64])
    requires { AtClient sizes (length mem.old) client × InUse used.now }
    ensures { InClient sizes client (Life.abort_part (used_in used.now)) mem.old mem.new }
{
    let at = 8 * client_at(sizes, client);
    life::abort(&mut mem[at..], used);
}

// What an abort stores.
pub fn store_abort(mem: &mut [u8], sizes: Sizes, client: usize, used: &[u64])
    requires { KnownClient sizes mem.old client × InUse used.now }
    ensures { InWhole sizes (aborts sizes client (used_in used.now)) mem.old mem.new }
{
    unlock_everywhere(mem, sizes, client);
    end_at(mem, sizes, client, used);
}

// The transaction aborts for a reason; the copies in use are those of this step.
pub fn abort(mem: &mut [u8], sizes: Sizes, client: usize, reason: u64, used: &[u64]) -> Outcome
    requires { AtClient sizes (length mem.old) client × InUse used.now }
    ensures { Comes sizes (λ m. abort sizes m client reason (used_in used.now)) mem.old result mem.new }
{
    if abort_fits(mem, sizes, client) {
        store_abort(mem, sizes, client, used);
        return Outcome::Aborted(reason);
    }
    Outcome::Refused(10)
}

// A fault refuses the step, or the transaction aborts for it.
pub fn stop(mem: &mut [u8], sizes: Sizes, client: usize, fault: Fault, used: &[u64]) -> Outcome
    requires { AtClient sizes (length mem.old) client × InUse used.now }
    ensures { Comes sizes (stops sizes client fault (used_in used.now)) mem.old result mem.new }
{
    match fault {
        Fault::Damaged => Outcome::Refused(10),
        Fault::Differs => abort(mem, sizes, client, 1, used),
        Fault::Busy => abort(mem, sizes, client, 2, used),
        Fault::TooMany => abort(mem, sizes, client, 4, used),
    }
}

// And where a step uses no copies.
pub fn abort_unused(mem: &mut [u8], sizes: Sizes, client: usize, reason: u64) -> Outcome
    requires { AtClient sizes (length mem.old) client }
    ensures { Comes sizes (λ m. abort sizes m client reason []) mem.old result mem.new }
{
    let none = [0u64; 98];
    abort(mem, sizes, client, reason, &none)
}

pub fn stop_unused(mem: &mut [u8], sizes: Sizes, client: usize, fault: Fault) -> Outcome
    requires { AtClient sizes (length mem.old) client }
    ensures { Comes sizes (stops sizes client fault []) mem.old result mem.new }
{
    let none = [0u64; 98];
    stop(mem, sizes, client, fault, &none)
}

// 6 give up
pub fn give_up(mem: &mut [u8], sizes: Sizes, client: usize) -> Outcome
    requires { AtClient sizes (length mem.old) client }
    ensures { Comes sizes (λ m. abort sizes m client 6 []) mem.old result mem.new }
{
    abort_unused(mem, sizes, client, 6)
}
