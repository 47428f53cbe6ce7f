// The write set stored at one server: "a written version becomes the one read plus 1, at home and, for a node inner before or
// after, in every table".
ghost use Rattle.std.specs.Prelude.{◌≡◌, ◌≤◌, ◌<◌, length};
ghost use Rattle.memory.specs.Word.{view};
ghost use Rattle.nodes.specs.Object.{object_of};
ghost use Rattle.server.specs.Object.{Has};
ghost use Rattle.client.specs.declared.part.Set.TheVariants.{Writes};
ghost use Rattle.client.specs.Sets.{held, count};
ghost use Rattle.kinds.specs.Parts.{AtClient, InServer, InWhole, AtServer};
ghost use Rattle.kinds.specs.Judge.{of_client};
ghost use Rattle.kinds.specs.Fits.{KnownAt};
ghost use Rattle.kinds.specs.Writes.{write_nth, write_step, stores_some, Storable, Storing, StoredNth, stores, StorableIn, WritableIn};
ghost use Rattle.client.specs.Layout.{ClientPart, limit};
ghost use Rattle.server.specs.Layout.{ServerDone};

use crate::items::{first_slot, second_slot};
use crate::whole::{client_part, server_at};
use client::items::{inner_before_after, is_home, version_read};
use client::part::{Set, count, number_at, record_at};
use nodes::name::Name;
use nodes::node::Node;
use server::store::{store_flag, store_metadata, store_node};
use steps::sizes::Sizes;

// A write by value: the object's number and record, the version read, and whether it is inner before or after.
#[derive(Clone, Copy)]
pub struct Write {
    pub number: u64,
    pub node: Node,
    pub read: u64,
    pub inner: bool,
}

// Item i of the write set.
fn write_in(part: &[u8], i: usize) -> Write
    requires { (i < limit Writes) × ClientPart part.now }
    ensures { result ≡ write_nth (held part.now) i }
{
    let number = number_at(part, Set::Writes, i);
    let node = record_at(part, Set::Writes, i);
    let read = version_read(part, number);
    let inner = inner_before_after(part, number);
    Write {
        number,
        node,
        read,
        inner,
    }
}

fn write_at(mem: &[u8], sizes: Sizes, client: usize, i: usize) -> Write
    requires { AtClient sizes (length mem.now) client × (i < limit Writes) }
    ensures { result ≡ write_nth (of_client sizes (view mem.now) client) i }
{
    write_in(client_part(mem, sizes, client), i)
}

// How many objects a client has written.
fn writes_of(mem: &[u8], sizes: Sizes, client: usize) -> usize
    requires { AtClient sizes (length mem.now) client }
    ensures value { result ≡ count (of_client sizes (view mem.now) client) Writes }
    ensures within { result ≤ limit Writes }
{
    count(client_part(mem, sizes, client), Set::Writes)
}

// Does a server store something of a write?
fn stores_some(server: u64, write: Write) -> bool
    ensures { result ≡ stores_some server write }
{
    if is_home(server, write.number) {
        return true;
    }
    write.inner
}

// What a server stores of a write.
fn store_write(part: &mut [u8], slots: usize, server: u64, write: Write)
    requires { StorableIn slots server write part.old }
    ensures { ServerDone slots (write_step server write) part.old part.new }
{
    let number = write.number;
    let first = first_slot(write.node);
    if number == 0 {
        let states = second_slot(write.node);
        store_metadata(part, slots, first, states, write.read);
        return;
    }
    if number <= 8192 {
        if stores_some(server, write) {
            let name = Name { number: number - 1 };
            store_node(
                part,
                slots,
                server,
                name,
                write.node,
                write.read,
                write.inner,
            );
        }
        return;
    }
    if is_home(server, number) {
        let name = Name {
            number: number - 8193,
        };
        store_flag(part, slots, name, first == 1);
    }
}

fn store_at(mem: &mut [u8], sizes: Sizes, server: usize, write: Write)
    requires { AtServer sizes (length mem.old) server × Has sizes.slots (object_of write.number) × Storable server write }
    ensures { InServer sizes server (write_step server write) mem.old mem.new }
{
    let at = 8 * server_at(sizes, server);
    store_write(&mut mem[at..], sizes.slots, server as u64, write);
}

fn store_nth(mem: &mut [u8], sizes: Sizes, client: usize, server: usize, i: usize)
    requires { WritableIn sizes mem.old client server i }
    ensures { StoredNth sizes client server i (view mem.old) (view mem.new) }
{
    let write = write_at(mem, sizes, client, i);
    store_at(mem, sizes, server, write);
}

// The write set's objects in order, at a server.
pub fn store_all(mem: &mut [u8], sizes: Sizes, client: usize, server: usize)
    requires known_at { KnownAt sizes mem.old client server }
    requires storing { Storing sizes (view mem.old) client server }
    ensures { InWhole sizes (stores sizes client server) mem.old mem.new }
{
    for i in 0..writes_of(mem, sizes, client) {
        store_nth(mem, sizes, client, server, i);
    }
}
