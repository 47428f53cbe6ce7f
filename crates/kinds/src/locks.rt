// The locks of the objects read, at one server: "Prepare checks and locks", "Apply writes and unlocks".
ghost use Rattle.std.specs.Prelude.{◌<◌, length};
ghost use Rattle.memory.specs.Word.{view};
ghost use Rattle.nodes.specs.Object.{object_of};
ghost use Rattle.server.specs.Store.{lock_step, unlock_step};
ghost use Rattle.kinds.specs.Parts.{InServer, InWhole, ObjectFor, ClientAt};
ghost use Rattle.kinds.specs.Items.{as_item};
ghost use Rattle.kinds.specs.Fits.{KnownAt};
ghost use Rattle.kinds.specs.Locks.{rule, changes, Knows, Turn, change_step};
ghost use Rattle.client.specs.Layout.{limit};
ghost use Rattle.client.specs.declared.part.Set.TheVariants.{Reads};

use crate::fits::{lowest, reads_of};
use crate::items::{Item, is_locked_at};
use crate::judge::item_at;
use crate::whole::server_at;
use nodes::object::Object;
use server::store::{lock, unlock};
use steps::sizes::Sizes;

// What is done to a lock. An enum and no closure: `changes`, which contracts here and the laws of an abort and an apply speak of, names the step by it.
#[derive(Clone, Copy)]
pub enum Change {
    Lock,
    Unlock,
}

// A client locks the object of that number at a server.
fn lock_at(mem: &mut [u8], sizes: Sizes, client: usize, server: usize, number: u64, writing: bool)
    requires { ObjectFor sizes (length mem.old) client server number }
    ensures { InServer sizes server (lock_step (object_of number) writing client) mem.old mem.new }
{
    let at = 8 * server_at(sizes, server);
    let object = Object::from(number);
    lock(&mut mem[at..], sizes.slots, object, client as u32, writing);
}

// Its lock goes.
fn unlock_at(mem: &mut [u8], sizes: Sizes, client: usize, server: usize, number: u64)
    requires { ObjectFor sizes (length mem.old) client server number }
    ensures { InServer sizes server (unlock_step (object_of number) client) mem.old mem.new }
{
    let at = 8 * server_at(sizes, server);
    let object = Object::from(number);
    unlock(&mut mem[at..], sizes.slots, object, client as u32);
}

fn change_at(mem: &mut [u8], sizes: Sizes, client: usize, server: usize, change: Change, item: Item)
    requires { ObjectFor sizes (length mem.old) client server item.number }
    ensures { InServer sizes server (rule change client (as_item item)) mem.old mem.new }
{
    match change {
        Change::Lock => lock_at(mem, sizes, client, server, item.number, item.written),
        Change::Unlock => unlock_at(mem, sizes, client, server, item.number),
    }
}

// An item's lock, if it is locked at the server.
fn change_item(
    mem: &mut [u8],
    sizes: Sizes,
    client: usize,
    server: usize,
    low: u64,
    change: Change,
    item: Item,
)
    requires { ObjectFor sizes (length mem.old) client server item.number }
    ensures { InServer sizes server (change_step change client low server (as_item item)) mem.old mem.new }
{
    if is_locked_at(item, low, server as u64) {
        change_at(mem, sizes, client, server, change, item);
    }
}

// The lock of item i of the read set.
fn change_nth(
    mem: &mut [u8],
    sizes: Sizes,
    client: usize,
    server: usize,
    low: u64,
    change: Change,
    i: usize,
)
    requires { ClientAt sizes (length mem.old) client server × (i < limit Reads) × Knows sizes (view mem.old) client i }
    ensures { Turn sizes client server change low i (view mem.old) (view mem.new) }
{
    let item = item_at(mem, sizes, client, i);
    change_item(mem, sizes, client, server, low, change, item);
}

// The locks of all objects that are locked at the server.
pub fn change_all(mem: &mut [u8], sizes: Sizes, client: usize, server: usize, change: Change)
    requires { KnownAt sizes mem.old client server }
    ensures { InWhole sizes (changes sizes client server change) mem.old mem.new }
{
    let low = lowest(mem, sizes, client);
    for i in 0..reads_of(mem, sizes, client) {
        change_nth(mem, sizes, client, server, low, change, i);
    }
}
