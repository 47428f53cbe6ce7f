// 4 prepare: "Prepare checks and locks"; "The last prepare is the decision"; "With one participant the prepare also applies".
ghost use Rattle.std.specs.Prelude.{◌≡◌, true, eqb, length};
ghost use Rattle.memory.specs.Bit.{put_bit};
ghost use Rattle.memory.specs.Word.{view};
ghost use Rattle.client.specs.Layout.{participants};
ghost use Rattle.steps.specs.Steps.{prepared_at, checked_prepare, prepare};
ghost use Rattle.kinds.specs.Parts.{InWhole, ClientAt};
ghost use Rattle.kinds.specs.Judge.{of_client};
ghost use Rattle.kinds.specs.Fits.{KnownAt, FitToPrepare};
ghost use Rattle.kinds.specs.Kinds.{Comes};
ghost use Rattle.kinds.specs.Prepare.{prepares, decides, applies_too};

use crate::abort::{abort_unused, stop_unused};
use crate::apply::apply_at;
use crate::course::{is_last, note, put_field};
use crate::findings::check_prepare;
use crate::judge::field_of;
use crate::known::{fit_to_apply_too, fit_to_prepare};
use crate::locks::{Change, change_all};
use crate::servers::is_there;
use client::part::{DECIDED, PARTICIPANTS, PHASE, PREPARED};
use memory::bits;
use steps::outcome::Outcome;
use steps::sizes::Sizes;

// The locks, and the note that this server has prepared.
fn lock_server(mem: &mut [u8], sizes: Sizes, client: usize, server: usize)
    requires { KnownAt sizes mem.old client server }
    ensures { InWhole sizes (prepares sizes client server) mem.old mem.new }
{
    change_all(mem, sizes, client, server, Change::Lock);
    note(mem, sizes, client, PREPARED, server);
}

// And the decision.
fn decide(mem: &mut [u8], sizes: Sizes, client: usize, server: usize)
    requires { KnownAt sizes mem.old client server }
    ensures { InWhole sizes (decides sizes client server) mem.old mem.new }
{
    lock_server(mem, sizes, client, server);
    put_field(mem, sizes, client, PHASE, DECIDED);
}

// Is the server the only participant?
fn is_only(mem: &[u8], sizes: Sizes, client: usize, server: usize) -> bool
    requires { ClientAt sizes (length mem.now) client server }
    ensures { result ≡ eqb (of_client sizes (view mem.now) client participants) (put_bit true 0 server) }
{
    let servers = field_of(mem, sizes, client, PARTICIPANTS);
    servers == bits::with(0, server as u32)
}

// The prepare of the only participant decides and applies.
fn apply_too(mem: &mut [u8], sizes: Sizes, client: usize, server: usize) -> Outcome
    requires { KnownAt sizes mem.old client server × FitToPrepare sizes mem.old client }
    ensures { Comes sizes (applies_too sizes client server) mem.old result mem.new }
{
    if !fit_to_apply_too(mem, sizes, client, server) {
        return Outcome::Refused(10);
    }
    decide(mem, sizes, client, server);
    apply_at(mem, sizes, client, server)
}

// A prepare that finds no fault.
fn prepare_at(mem: &mut [u8], sizes: Sizes, client: usize, server: usize) -> Outcome
    requires { KnownAt sizes mem.old client server × FitToPrepare sizes mem.old client }
    ensures { Comes sizes (λ m. prepared_at sizes m client server) mem.old result mem.new }
{
    if !is_last(mem, sizes, client, PREPARED, server) {
        lock_server(mem, sizes, client, server);
        return Outcome::Prepared(server as u64);
    }
    if is_only(mem, sizes, client, server) {
        return apply_too(mem, sizes, client, server);
    }
    decide(mem, sizes, client, server);
    Outcome::Decided
}

// The prepare at a server that is there, by what is found.
fn checked_prepare(mem: &mut [u8], sizes: Sizes, client: usize, server: usize) -> Outcome
    requires { KnownAt sizes mem.old client server × FitToPrepare sizes mem.old client }
    ensures { Comes sizes (λ m. checked_prepare sizes m client server) mem.old result mem.new }
{
    if let Err(fault) = check_prepare(mem, sizes, client, server) {
        return stop_unused(mem, sizes, client, fault);
    }
    prepare_at(mem, sizes, client, server)
}

// "prepare at an absent server aborts with 1"
pub fn prepare(mem: &mut [u8], sizes: Sizes, client: usize, server: usize) -> Outcome
    requires { ClientAt sizes (length mem.old) client server }
    ensures { Comes sizes (λ m. prepare sizes m client server) mem.old result mem.new }
{
    if !fit_to_prepare(mem, sizes, client) {
        return Outcome::Refused(10);
    }
    if !is_there(mem, sizes, server) {
        return abort_unused(mem, sizes, client, 1);
    }
    checked_prepare(mem, sizes, client, server)
}
