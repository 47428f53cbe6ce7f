// What a transaction has read and written, object by object.
ghost use Rattle.std.specs.Prelude.{◌≡◌};
ghost use Rattle.client.specs.declared.part.Set.TheVariants.{Reads};
ghost use Rattle.client.specs.Sets.{held, find};
ghost use Rattle.client.specs.Drops.{version_of};
ghost use Rattle.client.specs.Items.{inner, has, inner_in, inner_before_after};
ghost use Rattle.client.specs.Participants.{at_home};
ghost use Rattle.client.specs.Layout.{ClientPart};

use crate::part::{Set, find, record_at};
use nodes::node::Node;
use nodes::object::Object;

// "metadata and inner nodes": is the object of that number one of them, with that record?
pub fn is_inner(number: u64, node: Node) -> bool
    ensures { result ≡ inner number node }
{
    match Object::from(number) {
        Object::Metadata => true,
        Object::Node(_) => node.kind == 2,
        Object::Flag(_) => false,
    }
}

// Is there an item of the object in the set?
pub fn has(part: &[u8], set: Set, number: u64) -> bool
    requires { ClientPart part.now }
    ensures { result ≡ has (held part.now) set number }
{
    find(part, set, number).is_some()
}

// Is there one, and is the object inner in it?
pub fn inner_in(part: &[u8], set: Set, number: u64) -> bool
    requires { ClientPart part.now }
    ensures { result ≡ inner_in (held part.now) set number }
{
    match find(part, set, number) {
        Some(i) => is_inner(number, record_at(part, set, i)),
        None => false,
    }
}

// "inner before or after": as read or as written.
pub fn inner_before_after(part: &[u8], number: u64) -> bool
    requires { ClientPart part.now }
    ensures { result ≡ inner_before_after (held part.now) number }
{
    inner_in(part, Set::Reads, number) || inner_in(part, Set::Writes, number)
}

// The home of the object with that number; the metadata is on every server.
pub fn is_home(server: u64, number: u64) -> bool
    ensures { result ≡ at_home server number }
{
    match Object::from(number) {
        Object::Metadata => true,
        Object::Node(name) | Object::Flag(name) => name.server() == server,
    }
}

// The version of an object as it was read.
pub fn version_read(part: &[u8], number: u64) -> u64
    requires { ClientPart part.now }
    ensures { result ≡ version_of (held part.now) (find (held part.now) Reads number) }
{
    match find(part, Set::Reads, number) {
        Some(i) => record_at(part, Set::Reads, i).version,
        None => 0,
    }
}
