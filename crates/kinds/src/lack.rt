// A work step that lacks something fetches it. "Metadata is fetched from the first server not absent", "a node from its home, a vector
// from its server."
ghost use Rattle.std.specs.Prelude.{◌≡◌, ◌<◌, length};
ghost use Rattle.memory.specs.Word.{view};
ghost use Rattle.nodes.specs.Name.{server_of, slot_of};
ghost use Rattle.operations.specs.Object.{object, meta, node, vector};
ghost use Rattle.server.specs.HandOut.{metadata_sound};
ghost use Rattle.steps.specs.declared.outcome.Outcome.TheVariants.{Fetched};
ghost use Rattle.steps.specs.Steps.{node_at};
ghost use Rattle.kinds.specs.Parts.{AtServer};
ghost use Rattle.kinds.specs.Judge.{of_server};
ghost use Rattle.kinds.specs.Fetch.{Fetching, Checking};
ghost use Rattle.kinds.specs.Lack.{There, Source, HandsOver, Fetches};

use crate::abort::stop;
use crate::fetch::{check_from, gate};
use crate::hand::{store_meta, store_node, store_vector};
use crate::servers::{meta_of, metadata_source, vector_of};
use crate::whole::server_part;
use client::range::node_fits;
use nodes::name::Name;
use nodes::node::Node;
use server::hand_out::{metadata_is_sound, read_node};
use steps::outcome::Outcome;
use steps::sizes::Sizes;

pub fn meta_fits(mem: &[u8], sizes: Sizes, server: usize) -> bool
    requires { AtServer sizes (length mem.now) server }
    ensures { result ≡ metadata_sound sizes.slots (of_server sizes (view mem.now) server) }
{
    metadata_is_sound(server_part(mem, sizes, server), sizes.slots)
}

fn hand_meta(mem: &mut [u8], sizes: Sizes, client: usize, server: usize, used: &[u64]) -> Outcome
    requires { Checking sizes mem.old client server used.now }
    ensures { HandsOver sizes client used (object meta) server (Fetched 0 0) mem result }
{
    if let Err(fault) = gate(mem, sizes, client, server, 0, used) {
        return stop(mem, sizes, client, fault, used);
    }
    if !meta_fits(mem, sizes, server) {
        return Outcome::Refused(10);
    }
    let m = meta_of(mem, sizes, server);
    store_meta(mem, sizes, client, used, m);
    Outcome::Fetched(0, 0)
}

// The metadata, from the server that is its source.
fn fetch_meta_from(
    mem: &mut [u8],
    sizes: Sizes,
    client: usize,
    server: usize,
    used: &[u64],
) -> Outcome
    requires { Checking sizes mem.old client server used.now × Source sizes mem.old client server }
    ensures { Fetches sizes client used (object meta) mem result }
{
    if let Err(fault) = check_from(mem, sizes, client, server, used) {
        return stop(mem, sizes, client, fault, used);
    }
    hand_meta(mem, sizes, client, server, used)
}

// The metadata is lacking.
pub fn fetch_meta(mem: &mut [u8], sizes: Sizes, client: usize, used: &[u64]) -> Outcome
    requires { Fetching sizes mem.old client used.now }
    ensures { Fetches sizes client used (object meta) mem result }
{
    match metadata_source(mem, sizes, client) {
        Some(server) => fetch_meta_from(mem, sizes, client, server, used),
        None => Outcome::Refused(10),
    }
}

// The node of that name, as its home has it.
fn node_of(mem: &[u8], sizes: Sizes, server: usize, name: u64) -> Node
    requires { AtServer sizes (length mem.now) server × (slot_of name < sizes.slots) }
    ensures { result ≡ node_at (of_server sizes (view mem.now) server) name }
{
    let name = Name { number: name };
    read_node(
        server_part(mem, sizes, server),
        sizes.slots,
        name.slot() as usize,
    )
}

fn hand_node(
    mem: &mut [u8],
    sizes: Sizes,
    client: usize,
    server: usize,
    name: u64,
    used: &[u64],
) -> Outcome
    requires { Checking sizes mem.old client server used.now × There sizes name }
    ensures { HandsOver sizes client used (object (node name)) server (Fetched 1 name) mem result }
{
    let number = 1 + name;
    if let Err(fault) = gate(mem, sizes, client, server, number, used) {
        return stop(mem, sizes, client, fault, used);
    }
    let n = node_of(mem, sizes, server, name);
    if !node_fits(sizes.slots, n) {
        return Outcome::Refused(10);
    }
    store_node(mem, sizes, client, used, name, n);
    Outcome::Fetched(1, name)
}

// A node is lacking.
pub fn fetch_node(mem: &mut [u8], sizes: Sizes, client: usize, name: u64, used: &[u64]) -> Outcome
    requires { Checking sizes mem.old client (server_of name) used.now × There sizes name }
    ensures { Fetches sizes client used (object (node name)) mem result }
{
    let home = Name { number: name };
    let server = home.server() as usize;
    if let Err(fault) = check_from(mem, sizes, client, server, used) {
        return stop(mem, sizes, client, fault, used);
    }
    hand_node(mem, sizes, client, server, name, used)
}

// A server's vector is lacking: "a vector fetched is never busy".
pub fn fetch_vector(
    mem: &mut [u8],
    sizes: Sizes,
    client: usize,
    server: usize,
    used: &[u64],
) -> Outcome
    requires { Checking sizes mem.old client server used.now }
    ensures { Fetches sizes client used (vector server) mem result }
{
    if let Err(fault) = check_from(mem, sizes, client, server, used) {
        return stop(mem, sizes, client, fault, used);
    }
    let words = vector_of(mem, sizes, server);
    store_vector(mem, sizes, client, used, server, words);
    Outcome::Fetched(2, server as u64)
}
