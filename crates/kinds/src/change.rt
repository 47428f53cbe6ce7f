// 8 to 10, a change of the servers: "Each is done and writes the new metadata, its version raised, alike on all servers".
ghost use Rattle.std.specs.Prelude.{◌≡◌, suc, ◌<◌, length};
ghost use Rattle.memory.specs.Word.{view};
ghost use Rattle.server.specs.declared.place.Place.TheVariants.{Table};
ghost use Rattle.server.specs.Store.{metadata_step};
ghost use Rattle.nodes.specs.Bounds.{most_servers, last_version};
ghost use Rattle.client.specs.Items.{all_below};
ghost use Rattle.steps.specs.Whole.{server as at_server};
ghost use Rattle.steps.specs.Servers.{larger, largest_version, is_add, changed_states};
ghost use Rattle.steps.specs.Steps.{change_fits, change_servers};
ghost use Rattle.kinds.specs.Parts.{StoreIn, AtServer, AtClient, InServer, InWhole, stored_in};
ghost use Rattle.kinds.specs.Kinds.{Comes};
ghost use Rattle.kinds.specs.Change.{TableIn, Lowest, Rising, phase_fits, with_largest, version_fits, row_fits, added_fits, version_put, row_put, added, tell_one, told, changing};

use crate::judge::field_of;
use crate::lack::meta_fits;
use crate::servers::{is_there, lowest_there, meta_of};
use crate::whole::{server_at, server_part};
use client::part::{DECIDED, PHASE};
use memory::bits;
use server::hand_out::Metadata;
use server::place::{Place, get, put};
use server::store::store_metadata;
use steps::outcome::Outcome;
use steps::sizes::Sizes;
use steps::step::ServerChange;

// Is a client's phase one of the four?
fn phase_fits(mem: &[u8], sizes: Sizes, client: usize) -> bool
    requires { AtClient sizes (length mem.now) client }
    ensures { result ≡ phase_fits sizes (view mem.now) client }
{
    field_of(mem, sizes, client, PHASE) <= DECIDED
}

// Are all clients' phases?
fn phases_fit(mem: &[u8], sizes: Sizes) -> bool
    requires { StoreIn sizes (length mem.now) }
    ensures { result ≡ all_below sizes.clients (phase_fits sizes (view mem.now)) }
{
    for c in 0..sizes.clients {
        if !phase_fits(mem, sizes, c) {
            return false;
        }
    }
    true
}

// The version in a server's table of the node of a server and slot.
fn version_at(mem: &[u8], sizes: Sizes, server: usize, of: usize, slot: usize) -> u64
    requires { AtServer sizes (length mem.now) server × TableIn sizes of slot }
    ensures { result ≡ stored_in sizes (view mem.now) (at_server server (Table of slot)) }
{
    get(
        server_part(mem, sizes, server),
        sizes.slots,
        Place::Table(of, slot),
    )
}

fn larger(a: u64, b: u64) -> u64
    ensures { result ≡ larger a b }
{
    if a <= b {
        return b;
    }
    a
}

// The largest so far, with that of a server that is there.
fn with_largest(mem: &[u8], sizes: Sizes, server: usize, of: usize, slot: usize, best: u64) -> u64
    requires { AtServer sizes (length mem.now) server × TableIn sizes of slot }
    ensures { result ≡ with_largest (stored_in sizes (view mem.now)) server of slot best }
{
    if is_there(mem, sizes, server) {
        return larger(best, version_at(mem, sizes, server, of, slot));
    }
    best
}

// "the largest number in its own earlier table or in those of servers not absent"
fn largest_version(mem: &[u8], sizes: Sizes, server: usize, of: usize, slot: usize) -> u64
    requires { AtServer sizes (length mem.now) server × TableIn sizes of slot }
    ensures { result ≡ largest_version (stored_in sizes (view mem.now)) server of slot }
{
    let mut best = version_at(mem, sizes, server, of, slot);
    for u in 0..8 {
        best = with_largest(mem, sizes, u, of, slot, best);
    }
    best
}

// Is it a version of 32 bits?
fn version_fits(mem: &[u8], sizes: Sizes, server: usize, slot: usize, of: usize) -> bool
    requires { AtServer sizes (length mem.now) server × TableIn sizes of slot }
    ensures { result ≡ version_fits (stored_in sizes (view mem.now)) server slot of }
{
    largest_version(mem, sizes, server, of, slot) <= 4294967295
}

// Of all servers' nodes with a slot number.
fn row_fits(mem: &[u8], sizes: Sizes, server: usize, slot: usize) -> bool
    requires { AtServer sizes (length mem.now) server × (slot < sizes.slots) }
    ensures { result ≡ row_fits (stored_in sizes (view mem.now)) server slot }
{
    for t in 0..8 {
        if !version_fits(mem, sizes, server, slot, t) {
            return false;
        }
    }
    true
}

// Of all slots.
fn table_fits(mem: &[u8], sizes: Sizes, server: usize) -> bool
    requires { AtServer sizes (length mem.now) server }
    ensures { result ≡ all_below sizes.slots (row_fits (stored_in sizes (view mem.now)) server) }
{
    for k in 0..sizes.slots {
        if !row_fits(mem, sizes, server, k) {
            return false;
        }
    }
    true
}

// Is the server added?
fn is_add(change: ServerChange) -> bool
    ensures { result ≡ is_add change }
{
    match change {
        ServerChange::Add => true,
        ServerChange::Close => false,
        ServerChange::Remove => false,
    }
}

// Only an added server takes a table.
fn added_fits(mem: &[u8], sizes: Sizes, change: ServerChange, server: usize) -> bool
    requires { AtServer sizes (length mem.now) server }
    ensures { result ≡ added_fits sizes (stored_in sizes (view mem.now)) change server }
{
    if is_add(change) {
        return table_fits(mem, sizes, server);
    }
    true
}

// Refusal 10: is what a change reads in range? `lowest` is the lowest server there.
fn change_fits(mem: &[u8], sizes: Sizes, change: ServerChange, server: usize, lowest: usize) -> bool
    requires { AtServer sizes (length mem.now) server × Lowest sizes mem.now lowest }
    ensures { result ≡ change_fits sizes (stored_in sizes (view mem.now)) change server }
{
    if !phases_fit(mem, sizes) {
        return false;
    }
    if !meta_fits(mem, sizes, lowest) {
        return false;
    }
    added_fits(mem, sizes, change, server)
}

// The added server takes the largest version of one node.
fn put_version(mem: &mut [u8], sizes: Sizes, server: usize, slot: usize, of: usize)
    requires { AtServer sizes (length mem.old) server × TableIn sizes of slot }
    ensures { InWhole sizes (version_put server slot of) mem.old mem.new }
{
    let version = largest_version(mem, sizes, server, of, slot);
    let at = 8 * server_at(sizes, server);
    put(&mut mem[at..], sizes.slots, Place::Table(of, slot), version);
}

// Of all servers' nodes with a slot number.
fn put_row(mem: &mut [u8], sizes: Sizes, server: usize, slot: usize)
    requires { AtServer sizes (length mem.old) server × (slot < sizes.slots) }
    ensures { InWhole sizes (row_put server slot most_servers) mem.old mem.new }
{
    for t in 0..8 {
        put_version(mem, sizes, server, slot, t);
    }
}

// "slot by slot"
fn put_table(mem: &mut [u8], sizes: Sizes, server: usize)
    requires { AtServer sizes (length mem.old) server }
    ensures { InWhole sizes (added server sizes.slots) mem.old mem.new }
{
    for k in 0..sizes.slots {
        put_row(mem, sizes, server, k);
    }
}

// A server stores the metadata m, read with its version.
fn store_at(mem: &mut [u8], sizes: Sizes, server: usize, m: Metadata)
    requires { AtServer sizes (length mem.old) server × (m.version < last_version) }
    ensures { InServer sizes server (metadata_step m.root m.states (suc m.version)) mem.old mem.new }
{
    let at = 8 * server_at(sizes, server);
    store_metadata(&mut mem[at..], sizes.slots, m.root, m.states, m.version);
}

// "on all servers, an added or removed one included": the server t, if it is there or the one that is changed.
fn tell(mem: &mut [u8], sizes: Sizes, server: usize, m: Metadata, t: usize)
    requires { AtServer sizes (length mem.old) t × (m.version < last_version) }
    ensures { InWhole sizes (tell_one server m t) mem.old mem.new }
{
    if is_there(mem, sizes, t) {
        store_at(mem, sizes, t, m);
    } else {
        if t == server {
            store_at(mem, sizes, t, m);
        }
    }
}

fn tell_all(mem: &mut [u8], sizes: Sizes, server: usize, m: Metadata)
    requires { StoreIn sizes (length mem.old) × (m.version < last_version) }
    ensures { InWhole sizes (told server m most_servers) mem.old mem.new }
{
    for t in 0..8 {
        tell(mem, sizes, server, m, t);
    }
}

// The states after a change.
fn changed_states(change: ServerChange, states: u64, server: usize) -> u64
    requires { server < most_servers }
    ensures { result ≡ changed_states change states server }
{
    let open = 8 + server as u32;
    match change {
        ServerChange::Add => bits::with(bits::with(states, server as u32), open),
        ServerChange::Close => bits::without(states, open),
        ServerChange::Remove => bits::without(states, server as u32),
    }
}

// What an added server takes; and then the new metadata.
fn store_change(mem: &mut [u8], sizes: Sizes, change: ServerChange, server: usize, m: Metadata)
    requires { AtServer sizes (length mem.old) server × (m.version < last_version) }
    ensures { InWhole sizes (changing sizes change server m) mem.old mem.new }
{
    if is_add(change) {
        put_table(mem, sizes, server);
        tell_all(mem, sizes, server, m);
    } else {
        tell_all(mem, sizes, server, m);
    }
}

pub fn change_servers(mem: &mut [u8], sizes: Sizes, change: ServerChange, server: usize) -> Outcome
    requires { AtServer sizes (length mem.old) server × Rising sizes mem.old }
    ensures { Comes sizes (λ m. change_servers sizes m change server) mem.old result mem.new }
{
    let Some(lowest) = lowest_there(mem, sizes) else {
        return Outcome::Refused(10);
    };
    if !change_fits(mem, sizes, change, server, lowest) {
        return Outcome::Refused(10);
    }
    let old = meta_of(mem, sizes, lowest);
    let new = Metadata {
        root: old.root,
        version: old.version,
        states: changed_states(change, old.states, server),
    };
    store_change(mem, sizes, change, server, new);
    Outcome::Done
}
