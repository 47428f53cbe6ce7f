// Refusal 10 for what each rule reads of its client's own part. One function for each rule: its contract names the rule's own definition, which a
// function that takes the test as a closure would have to be told at each call.
ghost use Rattle.std.specs.Prelude.{◌≡◌, true, length};
ghost use Rattle.memory.specs.Word.{view};
ghost use Rattle.client.specs.Fits.{fit_to_work, fit_to_commit, fit_to_prepare, fit_to_abort, fit_to_unlock, fit_to_apply};
ghost use Rattle.kinds.specs.Parts.{AtClient};
ghost use Rattle.kinds.specs.Judge.{of_client};
ghost use Rattle.kinds.specs.Fits.{FitToPrepare};

use crate::whole::client_part;
use client::fits;
use steps::sizes::Sizes;

// A work step, before its walk.
pub fn fit_to_work(mem: &[u8], sizes: Sizes, client: usize) -> bool
    requires { AtClient sizes (length mem.now) client }
    ensures { result ≡ fit_to_work sizes.slots (of_client sizes (view mem.now) client) }
{
    fits::fit_to_work(client_part(mem, sizes, client), sizes.slots)
}

// A commit.
pub fn fit_to_commit(mem: &[u8], sizes: Sizes, client: usize) -> bool
    requires { AtClient sizes (length mem.now) client }
    ensures { result ≡ fit_to_commit sizes.slots (of_client sizes (view mem.now) client) }
{
    fits::fit_to_commit(client_part(mem, sizes, client), sizes.slots)
}

// A prepare, before it checks.
pub fn fit_to_prepare(mem: &[u8], sizes: Sizes, client: usize) -> bool
    requires { AtClient sizes (length mem.now) client }
    ensures { result ≡ fit_to_prepare sizes.slots (of_client sizes (view mem.now) client) }
{
    fits::fit_to_prepare(client_part(mem, sizes, client), sizes.slots)
}

// An abort.
pub fn fit_to_abort(mem: &[u8], sizes: Sizes, client: usize) -> bool
    requires { AtClient sizes (length mem.now) client }
    ensures { result ≡ fit_to_abort sizes.slots (of_client sizes (view mem.now) client) }
{
    fits::fit_to_abort(client_part(mem, sizes, client), sizes.slots)
}

// And where a server has prepared, what says what is locked there.
pub fn fit_to_unlock(mem: &[u8], sizes: Sizes, client: usize) -> bool
    requires { AtClient sizes (length mem.now) client }
    ensures { result ≡ fit_to_unlock sizes.slots (of_client sizes (view mem.now) client) }
{
    fits::fit_to_unlock(client_part(mem, sizes, client), sizes.slots)
}

// The last apply at a server, after a prepare that was fit.
pub fn fit_to_apply_too(mem: &[u8], sizes: Sizes, client: usize, server: usize) -> bool
    requires { AtClient sizes (length mem.now) client × FitToPrepare sizes mem.now client }
    ensures { result ≡ fit_to_apply sizes.slots (of_client sizes (view mem.now) client) server true }
{
    fits::fit_to_apply_too(client_part(mem, sizes, client), sizes.slots, server as u64)
}

// An apply at a server; the last one renews the copies.
pub fn fit_to_apply(mem: &[u8], sizes: Sizes, client: usize, server: usize, last: bool) -> bool
    requires { AtClient sizes (length mem.now) client }
    ensures { result ≡ fit_to_apply sizes.slots (of_client sizes (view mem.now) client) server last }
{
    fits::fit_to_apply(
        client_part(mem, sizes, client),
        sizes.slots,
        server as u64,
        last,
    )
}
