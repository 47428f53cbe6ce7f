// What a server hands out for a fetch.
ghost use Rattle.std.specs.Prelude.{◌≡◌, ◌/◌, ◌<◌, ◌≤◌, length};
ghost use Rattle.memory.specs.Word.{view};
ghost use Rattle.layout.specs.Space.{mem};
ghost use Rattle.server.specs.Layout.{places, server_block, part_words};
ghost use Rattle.server.specs.HandOut.{metadata_at, metadata_sound, vector_at, node_here};
ghost use Rattle.nodes.specs.Bounds.{end_of_slots};

use crate::place::{Place, get, index};
use nodes::node::Node;
use nodes::states::metadata_fits;
use nodes::stored;

// "The metadata (root name and its version)", which "gets each server's state"
#[derive(Clone, Copy)]
pub struct Metadata {
    pub root: u64,
    pub version: u64,
    pub states: u64,
}

pub fn read_metadata(part: &[u8], slots: usize) -> Metadata
    requires { (slots ≤ end_of_slots) × (part_words slots ≤ length part.now / 8) }
    ensures { result ≡ metadata_at (mem places (server_block slots) (view part.now)) }
{
    Metadata {
        root: get(part, slots, Place::Root),
        version: get(part, slots, Place::Version),
        states: get(part, slots, Place::States),
    }
}

// Refusal 10: is it in range?
pub fn metadata_is_sound(part: &[u8], slots: usize) -> bool
    requires { (slots ≤ end_of_slots) × (part_words slots ≤ length part.now / 8) }
    ensures { result ≡ metadata_sound slots (mem places (server_block slots) (view part.now)) }
{
    let m = read_metadata(part, slots);
    metadata_fits(slots, m.root, m.states, m.version)
}

// "a server's flags are its vector"
pub fn read_vector(part: &[u8], slots: usize) -> [u64; 16]
    requires { part_words slots ≤ length part.now / 8 }
    ensures { result ≡ vector_at (mem places (server_block slots) (view part.now)) }
{
    let mut words = [0u64; 16];
    memory::read_words(part, 4, &mut words);
    words
}

// The node in a slot of this server, with its own version.
pub fn read_node(part: &[u8], slots: usize, slot: usize) -> Node
    requires { (slots ≤ end_of_slots) × (slot < slots) × (part_words slots ≤ length part.now / 8) }
    ensures { result ≡ node_here slot (mem places (server_block slots) (view part.now)) }
{
    stored::read_node(part, index(slots, Place::Node(slot, 0)))
}
