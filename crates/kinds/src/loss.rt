// 7 client lost: "A decided transaction of a lost client is still applied"; "loss drops all copies".
ghost use Rattle.std.specs.Prelude.{length};
ghost use Rattle.client.specs.Copies.{drop_all};
ghost use Rattle.client.specs.Life as Life;
ghost use Rattle.steps.specs.Steps.{lose};
ghost use Rattle.kinds.specs.Parts.{AtClient, InClient, InWhole};
ghost use Rattle.kinds.specs.Fits.{KnownClient};
ghost use Rattle.kinds.specs.Kinds.{Comes};
ghost use Rattle.kinds.specs.Loss.{loses_undecided, losing};

use crate::abort::store_abort;
use crate::fits::abort_fits;
use crate::judge::field_of;
use crate::whole::client_at;
use client::copies::drop_all;
use client::life;
use client::part::{DECIDED, NO_TRANSACTION, PHASE};
use steps::outcome::Outcome;
use steps::sizes::Sizes;

// A client's copies go.
fn forget(mem: &mut [u8], sizes: Sizes, client: usize)
    requires { AtClient sizes (length mem.old) client }
    ensures { InClient sizes client drop_all mem.old mem.new }
{
    let at = 8 * client_at(sizes, client);
    drop_all(&mut mem[at..]);
}

// The client of a decided transaction is marked as lost.
fn mark_lost(mem: &mut [u8], sizes: Sizes, client: usize)
    requires { AtClient sizes (length mem.old) client }
    ensures { InClient sizes client Life.lose_part mem.old mem.new }
{
    let at = 8 * client_at(sizes, client);
    life::lose(&mut mem[at..]);
}

// An abort, and then all copies go.
fn store_loss(mem: &mut [u8], sizes: Sizes, client: usize)
    requires { KnownClient sizes mem.old client }
    ensures { InWhole sizes (losing sizes client) mem.old mem.new }
{
    let none = [0u64; 98];
    store_abort(mem, sizes, client, &none);
    forget(mem, sizes, client);
}

// "7 lost, and undecided"
fn lose_undecided(mem: &mut [u8], sizes: Sizes, client: usize) -> Outcome
    requires { AtClient sizes (length mem.old) client }
    ensures { Comes sizes (loses_undecided sizes client) mem.old result mem.new }
{
    if abort_fits(mem, sizes, client) {
        store_loss(mem, sizes, client);
        return Outcome::Aborted(7);
    }
    Outcome::Refused(10)
}

pub fn lose(mem: &mut [u8], sizes: Sizes, client: usize) -> Outcome
    requires { AtClient sizes (length mem.old) client }
    ensures { Comes sizes (λ m. lose sizes m client) mem.old result mem.new }
{
    let phase = field_of(mem, sizes, client, PHASE);
    if phase == NO_TRANSACTION {
        forget(mem, sizes, client);
        return Outcome::Done;
    }
    if phase == DECIDED {
        mark_lost(mem, sizes, client);
        return Outcome::Done;
    }
    if phase > DECIDED {
        return Outcome::Refused(10);
    }
    lose_undecided(mem, sizes, client)
}
