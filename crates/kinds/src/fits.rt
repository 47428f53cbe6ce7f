// Refusal 10 for what an apply and an abort read at servers, item by item.
ghost use Rattle.std.specs.Prelude.{◌≡◌, ◌≤◌, ◌<◌, length};
ghost use Rattle.memory.specs.Word.{view};
ghost use Rattle.client.specs.declared.part.Set.TheVariants.{Reads};
ghost use Rattle.client.specs.Sets.{count};
ghost use Rattle.client.specs.Participants.{lowest_of};
ghost use Rattle.steps.specs.Judge.{lowest_participant, unlock_fits, abort_fits};
ghost use Rattle.kinds.specs.Parts.{AtClient, stored_in, ObjectAt};
ghost use Rattle.kinds.specs.Items.{as_item};
ghost use Rattle.kinds.specs.Judge.{of_client};
ghost use Rattle.kinds.specs.Fits.{unlock_item, unlocks_at, unlocks_all, KnownAt, KnownClient};
ghost use Rattle.client.specs.Bounds.{most_servers};
ghost use Rattle.client.specs.Layout.{limit};

use crate::items::{Item, is_locked_at};
use crate::judge::{field_of, item_at, lock_fits};
use crate::known::{fit_to_abort, fit_to_unlock};
use crate::whole::client_part;
use client::part::{PARTICIPANTS, PREPARED, Set, count};
use memory::bits;
use steps::sizes::Sizes;

// How many objects a client has read.
pub fn reads_of(mem: &[u8], sizes: Sizes, client: usize) -> usize
    requires { AtClient sizes (length mem.now) client }
    ensures value { result ≡ count (of_client sizes (view mem.now) client) Reads }
    ensures within { result ≤ limit Reads }
{
    count(client_part(mem, sizes, client), Set::Reads)
}

// The lowest of n servers in the set; n if there is none, no Option: `lowest_participant` of `steps` is that number, and `checked_at` compares servers
// with it.
fn lowest_in(n: usize, set: u64) -> usize
    requires { n ≤ most_servers }
    ensures { result ≡ lowest_of n set }
{
    for s in 0..n {
        if bits::has(set, s as u32) {
            return s;
        }
    }
    n
}

// The lowest participant, where metadata and inner nodes are checked.
pub fn lowest(mem: &[u8], sizes: Sizes, client: usize) -> u64
    requires { AtClient sizes (length mem.now) client }
    ensures { result ≡ lowest_participant sizes (stored_in sizes (view mem.now)) client }
{
    let set = field_of(mem, sizes, client, PARTICIPANTS);
    lowest_in(8, set) as u64
}

// What is unlocked of an item at a server: its kinds, which say whether it is locked there, and then its lock.
fn item_unlocks(mem: &[u8], sizes: Sizes, server: usize, lowest: u64, item: Item) -> bool
    requires { ObjectAt sizes (length mem.now) server item.number }
    ensures { result ≡ unlock_item sizes (view mem.now) lowest server (as_item item) }
{
    if !item.known {
        return false;
    }
    if !item.settled {
        return false;
    }
    if is_locked_at(item, lowest, server as u64) {
        return lock_fits(mem, sizes, server, item.number);
    }
    true
}

// Are the locks that are given back at a server in range?
pub fn unlock_fits(mem: &[u8], sizes: Sizes, client: usize, server: usize) -> bool
    requires { KnownAt sizes mem.now client server }
    ensures { result ≡ unlock_fits sizes (stored_in sizes (view mem.now)) client server }
{
    let low = lowest(mem, sizes, client);
    for i in 0..reads_of(mem, sizes, client) {
        if !item_unlocks(mem, sizes, server, low, item_at(mem, sizes, client, i)) {
            return false;
        }
    }
    true
}

// And at a server, if the transaction is prepared there?
fn server_unlocks(mem: &[u8], sizes: Sizes, client: usize, prepared: u64, server: usize) -> bool
    requires { KnownAt sizes mem.now client server }
    ensures { result ≡ unlocks_at sizes (view mem.now) client prepared server }
{
    if !bits::has(prepared, server as u32) {
        return true;
    }
    if !fit_to_unlock(mem, sizes, client) {
        return false;
    }
    unlock_fits(mem, sizes, client, server)
}

// And at every server at which the transaction is prepared?
fn servers_unlock(mem: &[u8], sizes: Sizes, client: usize) -> bool
    requires { KnownClient sizes mem.now client }
    ensures { result ≡ unlocks_all sizes (view mem.now) client }
{
    let prepared = field_of(mem, sizes, client, PREPARED);
    for s in 0..8 {
        if !server_unlocks(mem, sizes, client, prepared, s) {
            return false;
        }
    }
    true
}

// Is what an abort reads in range?
pub fn abort_fits(mem: &[u8], sizes: Sizes, client: usize) -> bool
    requires { AtClient sizes (length mem.now) client }
    ensures { result ≡ abort_fits sizes (stored_in sizes (view mem.now)) client }
{
    if !fit_to_abort(mem, sizes, client) {
        return false;
    }
    servers_unlock(mem, sizes, client)
}
