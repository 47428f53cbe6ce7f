// 5 apply: "Apply writes and unlocks"; "The last apply ends the transaction and renews its copies".
ghost use Rattle.std.specs.Prelude.{length};
ghost use Rattle.memory.specs.Word.{view};
ghost use Rattle.client.specs.Renew.{finish};
ghost use Rattle.steps.specs.Steps.{applied_at, apply};
ghost use Rattle.kinds.specs.Parts.{AtClient, ClientAt, InWhole, InClient};
ghost use Rattle.kinds.specs.Fits.{KnownAt};
ghost use Rattle.kinds.specs.Kinds.{Comes};
ghost use Rattle.kinds.specs.Writes.{Storing};
ghost use Rattle.kinds.specs.Apply.{applies};

use crate::course::{is_last, note};
use crate::fits::unlock_fits;
use crate::known::fit_to_apply;
use crate::locks::{Change, change_all};
use crate::whole::client_at;
use crate::writes::store_all;
use client::part::APPLIED;
use client::renew::finish;
use steps::outcome::Outcome;
use steps::sizes::Sizes;

// What a server stores.
fn store_server(mem: &mut [u8], sizes: Sizes, client: usize, server: usize)
    requires known_at { KnownAt sizes mem.old client server }
    requires storing { Storing sizes (view mem.old) client server }
    ensures { InWhole sizes (applies sizes client server) mem.old mem.new }
{
    store_all(mem, sizes, client, server);
    change_all(mem, sizes, client, server, Change::Unlock);
}

// The transaction has ended.
fn finish_at(mem: &mut [u8], sizes: Sizes, client: usize)
    requires { AtClient sizes (length mem.old) client }
    ensures { InClient sizes client finish mem.old mem.new }
{
    let at = 8 * client_at(sizes, client);
    finish(&mut mem[at..]);
}

// An apply where all that it reads is in range.
pub fn apply_at(mem: &mut [u8], sizes: Sizes, client: usize, server: usize) -> Outcome
    requires known_at { KnownAt sizes mem.old client server }
    requires storing { Storing sizes (view mem.old) client server }
    ensures { Comes sizes (λ m. applied_at sizes m client server) mem.old result mem.new }
{
    let last = is_last(mem, sizes, client, APPLIED, server);
    store_server(mem, sizes, client, server);
    note(mem, sizes, client, APPLIED, server);
    if last {
        finish_at(mem, sizes, client);
        return Outcome::Committed;
    }
    Outcome::Applied(server as u64)
}

pub fn apply(mem: &mut [u8], sizes: Sizes, client: usize, server: usize) -> Outcome
    requires { ClientAt sizes (length mem.old) client server }
    ensures { Comes sizes (λ m. apply sizes m client server) mem.old result mem.new }
{
    let last = is_last(mem, sizes, client, APPLIED, server);
    if !fit_to_apply(mem, sizes, client, server, last) {
        return Outcome::Refused(10);
    }
    if !unlock_fits(mem, sizes, client, server) {
        return Outcome::Refused(10);
    }
    apply_at(mem, sizes, client, server)
}
