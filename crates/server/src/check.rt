// What a server can say of an object that a transaction has read.
ghost use Rattle.std.specs.Prelude.{◌≡◌, ◌/◌, ◌≤◌, length};
ghost use Rattle.memory.specs.Word.{view};
ghost use Rattle.layout.specs.Space.{mem};
ghost use Rattle.server.specs.Layout.{places, server_block, part_words};
ghost use Rattle.server.specs.Object.{Has};
ghost use Rattle.server.specs.Check.{can_check, mark_place, mark_in, standing, mark_fits, mark_finding};
ghost use Rattle.nodes.specs.Bounds.{end_of_slots};

use crate::place::{Place, get};
use memory::bits;
use nodes::object::Object;

// The answer of a check, 2 before 1: the object is as it was read; it differs (reason 1); it is locked against the use (reason 2); or a
// mark is out of range (refusal 10).
#[derive(Clone, Copy)]
pub enum Finding {
    Same,
    Differs,
    Busy,
    Unfit,
}

// Can this server check the object? `inner`: it was read as an inner node.
pub fn can_check(server: u64, object: Object, inner: bool) -> bool
    ensures { result ≡ can_check server object inner }
{
    match object {
        Object::Metadata => true,
        Object::Node(x) => inner || x.server() == server,
        Object::Flag(x) => x.server() == server,
    }
}

// Where the mark of an object lies: the version by which it is checked, or the word with its flag.
fn mark_place(object: Object, inner: bool) -> Place
    ensures { result ≡ mark_place object inner }
{
    match object {
        Object::Metadata => Place::Version,
        Object::Node(x) => {
            if inner {
                Place::Table(x.server() as usize, x.slot() as usize)
            } else {
                Place::Node(x.slot() as usize, 2)
            }
        }
        Object::Flag(x) => Place::Vector(x.slot() as usize / 64),
    }
}

// The mark of an object in that word.
fn mark_in(object: Object, word: u64) -> u64
    ensures { result ≡ mark_in object word }
{
    match object {
        Object::Metadata | Object::Node(_) => word,
        Object::Flag(x) => bits::has(word, (x.slot() % 64) as u32) as u64,
    }
}

// The mark that stands here of an object.
pub fn stands(part: &[u8], slots: usize, object: Object, inner: bool) -> u64
    requires { (slots ≤ end_of_slots) × Has slots object × (part_words slots ≤ length part.now / 8) }
    ensures { result ≡ standing object inner (mem places (server_block slots) (view part.now)) }
{
    mark_in(object, get(part, slots, mark_place(object, inner)))
}

// May a mark of the object be this number?
fn mark_fits(object: Object, mark: u64) -> bool
    ensures { result ≡ mark_fits object mark }
{
    match object {
        Object::Metadata | Object::Node(_) => mark <= 4294967295,
        Object::Flag(_) => mark <= 1,
    }
}

// The mark that stands here, and the one that was read.
fn mark_finding(object: Object, here: u64, read: u64) -> Finding
    ensures { result ≡ mark_finding object here read }
{
    if !mark_fits(object, here) || !mark_fits(object, read) {
        Finding::Unfit
    } else if here == read {
        Finding::Same
    } else {
        Finding::Differs
    }
}

// Is an object still as it was read, with this mark? Its lock is not looked at.
pub fn compare(part: &[u8], slots: usize, object: Object, inner: bool, mark: u64) -> Finding
    requires { (slots ≤ end_of_slots) × Has slots object × (part_words slots ≤ length part.now / 8) }
    ensures { result ≡ mark_finding object (standing object inner (mem places (server_block slots) (view part.now))) mark }
{
    mark_finding(object, stands(part, slots, object, inner), mark)
}
