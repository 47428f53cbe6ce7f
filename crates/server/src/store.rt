// What a server stores: locks at a prepare, and at an apply what was written.
ghost use Rattle.std.specs.Prelude.{◌≡◌, ◌+◌, ◌/◌, ◌<◌, ◌≤◌, length};
ghost use Rattle.server.specs.Layout.{part_words, ServerDone};
ghost use Rattle.server.specs.Object.{Has};
ghost use Rattle.server.specs.Store.{lock_step, unlock_step, metadata_step, flag_step, kept_of, home_step, table_step, node_step};
ghost use Rattle.nodes.specs.Bounds.{end_of_slots, last_version, most_clients};

use crate::lock::{with_lock, without_lock};
use crate::object::lock_place;
use crate::place::{Place, get, index, put};
use memory::bits;
use nodes::name::Name;
use nodes::node::Node;
use nodes::object::Object;
use nodes::stored;

// A client locks an object, for writing or for reading.
pub fn lock(part: &mut [u8], slots: usize, object: Object, client: u32, writing: bool)
    requires { (slots ≤ end_of_slots) × Has slots object × (client < most_clients) × (part_words slots ≤ length part.old / 8) }
    ensures { ServerDone slots (lock_step object writing client) part.old part.new }
{
    let at = lock_place(object);
    let word = get(part, slots, at);
    put(part, slots, at, with_lock(word, client, writing));
}

// A client's lock on an object goes.
pub fn unlock(part: &mut [u8], slots: usize, object: Object, client: u32)
    requires { (slots ≤ end_of_slots) × Has slots object × (client < most_clients) × (part_words slots ≤ length part.old / 8) }
    ensures { ServerDone slots (unlock_step object client) part.old part.new }
{
    let at = lock_place(object);
    let word = get(part, slots, at);
    put(part, slots, at, without_lock(word, client));
}

// The metadata, read with a version, is written: "a written version becomes the one read plus 1".
pub fn store_metadata(part: &mut [u8], slots: usize, root: u64, states: u64, read: u64)
    requires { (slots ≤ end_of_slots) × (read < last_version) × (part_words slots ≤ length part.old / 8) }
    ensures { ServerDone slots (metadata_step root states (read + 1)) part.old part.new }
{
    put(part, slots, Place::Root, root);
    put(part, slots, Place::Version, read + 1);
    put(part, slots, Place::States, states);
}

// The flag of a slot here becomes taken or free.
pub fn store_flag(part: &mut [u8], slots: usize, name: Name, taken: bool)
    requires { (slots ≤ end_of_slots) × (part_words slots ≤ length part.old / 8) }
    ensures { ServerDone slots (flag_step name taken) part.old part.new }
{
    let slot = name.slot();
    let at = Place::Vector(slot as usize / 64);
    let i = (slot % 64) as u32;
    let word = get(part, slots, at);
    put(part, slots, at, bits::put(word, i, taken));
}

// A node with a version; "Freed nodes become kind 0 and keep only a version."
fn kept(mut node: Node, version: u64) -> Node
    ensures { result ≡ kept_of node version }
{
    if node.kind == 0 {
        return Node::free(version);
    }
    node.version = version;
    node
}

// A node is written at its home.
fn store_at_home(part: &mut [u8], slots: usize, server: u64, name: Name, node: Node)
    requires { (slots ≤ end_of_slots) × Has slots (Object.Node name) × (part_words slots ≤ length part.old / 8) }
    ensures { ServerDone slots (home_step server name node) part.old part.new }
{
    if name.server() == server {
        stored::write_node(
            part,
            index(slots, Place::Node(name.slot() as usize, 0)),
            node,
        );
    }
}

// The table has a version for a node that is inner before or after.
fn store_in_table(part: &mut [u8], slots: usize, name: Name, version: u64, inner: bool)
    requires { (slots ≤ end_of_slots) × Has slots (Object.Node name) × (part_words slots ≤ length part.old / 8) }
    ensures { ServerDone slots (table_step name version inner) part.old part.new }
{
    if inner {
        put(
            part,
            slots,
            Place::Table(name.server() as usize, name.slot() as usize),
            version,
        );
    }
}

// A node, read with a version, is written: "at home and, for a node inner before or after, in every table, even where a table
// holds an older number".
pub fn store_node(
    part: &mut [u8],
    slots: usize,
    server: u64,
    name: Name,
    node: Node,
    read: u64,
    inner: bool,
)
    requires { (slots ≤ end_of_slots) × Has slots (Object.Node name) × (read < last_version)
        × (part_words slots ≤ length part.old / 8) }
    ensures { ServerDone slots (node_step server name node (read + 1) inner) part.old part.new }
{
    let version = read + 1;
    store_at_home(part, slots, server, name, kept(node, version));
    store_in_table(part, slots, name, version, inner);
}
