// Which servers there are, and what a change of them asks.
ghost use Rattle.std.specs.Prelude.{◌≡◌, not, ◌<◌, length, IfSome};
ghost use Rattle.memory.specs.Word.{view};
ghost use Rattle.server.specs.declared.place.Place.TheVariants.{States};
ghost use Rattle.server.specs.HandOut.{metadata_at, vector_at};
ghost use Rattle.client.specs.Bounds.{most_servers};
ghost use Rattle.steps.specs.Whole.{server as at_server};
ghost use Rattle.steps.specs.Servers.{first_from, there, lowest_there, metadata_source, other_open, another_open, state_suits, any_taken, version_ends, unended, quiet};
ghost use Rattle.kinds.specs.Parts.{StoreIn, AtServer, AtClient, stored_in};
ghost use Rattle.kinds.specs.Judge.{of_server, of_client};
ghost use Rattle.kinds.specs.Servers.{or_none, nonzero};
ghost use Rattle.client.specs.Items.{any_below};

use crate::judge::field_of;
use crate::whole::server_part;
use client::part::{COMMITTING, DECIDED, PHASE, PREPARED};
use nodes::states::{is_closing, is_open, is_present};
use server::hand_out::{Metadata, read_metadata, read_vector};
use steps::sizes::Sizes;
use steps::step::ServerChange;

// The metadata that a server has.
pub fn meta_of(mem: &[u8], sizes: Sizes, server: usize) -> Metadata
    requires { AtServer sizes (length mem.now) server }
    ensures { result ≡ metadata_at (of_server sizes (view mem.now) server) }
{
    read_metadata(server_part(mem, sizes, server), sizes.slots)
}

// A server's vector.
pub fn vector_of(mem: &[u8], sizes: Sizes, server: usize) -> [u64; 16]
    requires { AtServer sizes (length mem.now) server }
    ensures { result ≡ vector_at (of_server sizes (view mem.now) server) }
{
    read_vector(server_part(mem, sizes, server), sizes.slots)
}

// "a server is what its own metadata calls it"
fn states_of(mem: &[u8], sizes: Sizes, server: usize) -> u64
    requires { AtServer sizes (length mem.now) server }
    ensures { result ≡ stored_in sizes (view mem.now) (at_server server States) }
{
    let m = meta_of(mem, sizes, server);
    m.states
}

// Is it not absent?
pub fn is_there(mem: &[u8], sizes: Sizes, server: usize) -> bool
    requires { AtServer sizes (length mem.now) server }
    ensures { result ≡ there (stored_in sizes (view mem.now)) server }
{
    is_present(states_of(mem, sizes, server), server)
}

// The first server not absent, "counting up and round" from one.
fn first_from(mem: &[u8], sizes: Sizes, first: usize) -> Option<usize>
    requires { StoreIn sizes (length mem.now) × (first < most_servers) }
    ensures value { or_none result ≡ first_from (there (stored_in sizes (view mem.now))) most_servers first }
    ensures within { IfSome result (λ s. s < most_servers) }
{
    for i in 0..8 {
        let server = (first + i) % 8;
        if is_there(mem, sizes, server) {
            return Some(server);
        }
    }
    None
}

// The lowest server not absent.
pub fn lowest_there(mem: &[u8], sizes: Sizes) -> Option<usize>
    requires { StoreIn sizes (length mem.now) }
    ensures value { or_none result ≡ lowest_there (stored_in sizes (view mem.now)) }
    ensures within { IfSome result (λ s. s < most_servers) }
{
    first_from(mem, sizes, 0)
}

// "Metadata is fetched from the first server not absent, counting up and round from the old one"
pub fn metadata_source(mem: &[u8], sizes: Sizes, client: usize) -> Option<usize>
    requires { StoreIn sizes (length mem.now) }
    ensures value { or_none result ≡ metadata_source (stored_in sizes (view mem.now)) sizes client }
    ensures within { IfSome result (λ s. s < most_servers) }
{
    first_from(mem, sizes, client % sizes.servers)
}

// Is the server open, and another than the one given?
fn is_other_open(mem: &[u8], sizes: Sizes, server: usize, other: usize) -> bool
    requires { AtServer sizes (length mem.now) other }
    ensures { result ≡ other_open (stored_in sizes (view mem.now)) server other }
{
    if other == server {
        return false;
    }
    is_open(states_of(mem, sizes, other), other)
}

// Is another server open?
fn another_open(mem: &[u8], sizes: Sizes, server: usize) -> bool
    requires { StoreIn sizes (length mem.now) }
    ensures { result ≡ another_open (stored_in sizes (view mem.now)) server }
{
    for t in 0..8 {
        if is_other_open(mem, sizes, server, t) {
            return true;
        }
    }
    false
}

// 13: does the server's state fit, and does another stay open?
pub fn state_suits(mem: &[u8], sizes: Sizes, change: ServerChange, server: usize) -> bool
    requires { AtServer sizes (length mem.now) server }
    ensures { result ≡ state_suits (stored_in sizes (view mem.now)) server change }
{
    let states = states_of(mem, sizes, server);
    match change {
        ServerChange::Add => !is_present(states, server),
        ServerChange::Close => is_open(states, server) && another_open(mem, sizes, server),
        ServerChange::Remove => is_closing(states, server),
    }
}

// Is a word of a vector not 0?
fn any_nonzero(words: [u64; 16]) -> bool
    ensures { result ≡ any_below 16 (nonzero words) }
{
    for i in 0..16 {
        if words[i] != 0 {
            return true;
        }
    }
    false
}

// 14: is "a slot still taken"?
pub fn any_taken(mem: &[u8], sizes: Sizes, server: usize) -> bool
    requires { AtServer sizes (length mem.now) server }
    ensures { result ≡ any_taken (stored_in sizes (view mem.now)) server }
{
    any_nonzero(vector_of(mem, sizes, server))
}

// 15: is "the metadata's version .. at its largest"?
pub fn version_ends(mem: &[u8], sizes: Sizes) -> bool
    requires { StoreIn sizes (length mem.now) }
    ensures { result ≡ version_ends (stored_in sizes (view mem.now)) }
{
    match lowest_there(mem, sizes) {
        Some(s) => meta_of(mem, sizes, s).version >= 4294967295,
        None => false,
    }
}

// Is a client's transaction not "prepared or decided without being ended"?
fn is_quiet_client(mem: &[u8], sizes: Sizes, client: usize) -> bool
    requires { AtClient sizes (length mem.now) client }
    ensures { result ≡ not (unended (of_client sizes (view mem.now) client)) }
{
    let phase = field_of(mem, sizes, client, PHASE);
    if phase == DECIDED {
        return false;
    }
    if phase == COMMITTING {
        return field_of(mem, sizes, client, PREPARED) == 0;
    }
    true
}

// "no transaction is prepared or decided without being ended"
pub fn is_quiet(mem: &[u8], sizes: Sizes) -> bool
    requires { StoreIn sizes (length mem.now) }
    ensures { result ≡ quiet sizes (stored_in sizes (view mem.now)) }
{
    for c in 0..sizes.clients {
        if !is_quiet_client(mem, sizes, c) {
            return false;
        }
    }
    true
}
