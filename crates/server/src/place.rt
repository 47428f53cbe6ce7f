// The places of a server's part, and a word read and written at one.
ghost use Rattle.std.specs.Prelude.{◌≡◌, ◌+◌, ◌*◌, ◌/◌, ◌≤◌, length};
ghost use Rattle.memory.specs.Word.{view};
ghost use Rattle.layout.specs.Space.{Valid, mem};
ghost use Rattle.server.specs.Layout.{most_part_words, places, server_block, part_words, Lies, put_step, ServerDone};
ghost use Rattle.nodes.specs.Bounds.{end_of_slots};

// "The metadata (root name and its version) is on every server", and "gets each server's state". Every server also has a table of versions for all slots
// .. a node's own version is at its home server. Each slot has a taken flag; a server's flags are its vector." And a lock
// for every object that the server can check.
#[derive(Clone, Copy)]
pub enum Place {
    // the root's name, the metadata's version, the servers' states, and the lock of all three
    Root,
    Version,
    States,
    MetadataLock,
    // a word of the vector
    Vector(usize),
    // the node in a slot of this server: slot, word
    Node(usize, usize),
    // the lock of a slot's taken flag
    FlagLock(usize),
    // the table's version of a node, and the node's lock: server, slot
    Table(usize, usize),
    NodeLock(usize, usize),
}

// The words of the part of a server with so many slots.
pub fn part_words(slots: usize) -> usize
    requires { slots ≤ end_of_slots }
    ensures value { result ≡ part_words slots }
    ensures within { result ≤ most_part_words }
{
    20 + 50 * slots
}

// The word at which a place lies.
pub fn index(slots: usize, place: Place) -> usize
    requires { (slots ≤ end_of_slots) × Valid places (server_block slots) place }
    ensures { Lies slots place result }
{
    match place {
        Place::Root => 0,
        Place::Version => 1,
        Place::States => 2,
        Place::MetadataLock => 3,
        Place::Vector(i) => 4 + i,
        Place::Node(k, j) => 20 + 50 * k + j,
        Place::FlagLock(k) => 53 + 50 * k,
        Place::Table(s, k) => 54 + 50 * k + s,
        Place::NodeLock(s, k) => 62 + 50 * k + s,
    }
}

// The word at a place.
pub fn get(part: &[u8], slots: usize, place: Place) -> u64
    requires { (slots ≤ end_of_slots) × Valid places (server_block slots) place × (part_words slots ≤ length part.now / 8) }
    ensures { result ≡ mem places (server_block slots) (view part.now) place }
{
    memory::read_word(part, index(slots, place))
}

// The word at a place becomes v.
pub fn put(part: &mut [u8], slots: usize, place: Place, v: u64)
    requires { (slots ≤ end_of_slots) × Valid places (server_block slots) place × (part_words slots ≤ length part.old / 8) }
    ensures { ServerDone slots (put_step place v) part.old part.new }
{
    memory::write_word(part, index(slots, place), v);
}
