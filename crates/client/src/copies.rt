// Copies of objects: put, and dropped.
ghost use Rattle.std.specs.Prelude.{◌<◌};
ghost use Rattle.layout.specs.Sweep.{sweep};
ghost use Rattle.client.specs.Layout.{client_words, ClientPart, limit};
ghost use Rattle.client.specs.Part.{Did, drop_vector};
ghost use Rattle.client.specs.Lent.{InUse, used_in};
ghost use Rattle.client.specs.Drops.{drop_each, drop_used};
ghost use Rattle.client.specs.Copies.{copy_node, drop_node, drop_object, drop_read, drop_reads, empty_place, drop_all};
ghost use Rattle.client.specs.Bounds.{most_servers};
ghost use Rattle.client.specs.declared.part.Set.TheVariants.{Reads, Copies};

use crate::part::{
    META_STATES, Set, count, drop_vector, find, number_at, set_field, set_item, set_number,
};
use crate::used::in_use;
use nodes::name::Name;
use nodes::node::Node;
use nodes::object::Object;

// A node's copy, where it has a place or one is empty.
pub fn copy_node(part: &mut [u8], number: u64, n: Node)
    requires { ClientPart part.old }
    ensures { Did (copy_node number n) part.old part.new }
{
    if let Some(i) = find(part, Set::Copies, number) {
        set_item(part, Set::Copies, i, number, n);
    } else if let Some(i) = find(part, Set::Copies, 0) {
        set_item(part, Set::Copies, i, number, n);
    }
}

pub fn drop_node(part: &mut [u8], number: u64)
    requires { ClientPart part.old }
    ensures { Did (drop_node number) part.old part.new }
{
    if let Some(i) = find(part, Set::Copies, number) {
        set_number(part, Set::Copies, i, 0);
    }
}

// The copy of the object with that number; of a flag, its server's vector.
fn drop_object(part: &mut [u8], number: u64)
    requires { ClientPart part.old }
    ensures { Did (drop_object number) part.old part.new }
{
    match Object::from(number) {
        Object::Metadata => set_field(part, META_STATES, 0),
        Object::Node(_) => drop_node(part, number),
        Object::Flag(flag) => {
            let s = flag.server();
            if s < Name::SERVERS {
                drop_vector(part, s as usize);
            }
        }
    }
}

fn drop_read(part: &mut [u8], i: usize)
    requires { (i < limit Reads) × ClientPart part.old }
    ensures { Did (drop_read i) part.old part.new }
{
    drop_object(part, number_at(part, Set::Reads, i));
}

// The copies of all objects read.
fn drop_reads(part: &mut [u8])
    requires { ClientPart part.old }
    ensures { Did drop_reads part.old part.new }
{
    for i in 0..count(part, Set::Reads) {
        drop_read(part, i);
    }
}

// The copies of the objects in use.
fn drop_each(part: &mut [u8], used: &[u64])
    requires { InUse used.now × ClientPart part.old }
    ensures { Did (drop_each (used_in used.now)) part.old part.new }
{
    for number in in_use(used) {
        drop_object(part, *number);
    }
}

// The copies of all objects read, those in use included.
pub fn drop_used(part: &mut [u8], used: &[u64])
    requires { InUse used.now × ClientPart part.old }
    ensures { Did (drop_used (used_in used.now)) part.old part.new }
{
    drop_reads(part);
    drop_each(part, used);
}

fn drop_nodes(part: &mut [u8])
    requires { ClientPart part.old }
    ensures { Did (sweep client_words empty_place (limit Copies)) part.old part.new }
{
    for i in 0..64 {
        set_number(part, Set::Copies, i, 0);
    }
}

fn drop_vectors(part: &mut [u8])
    requires { ClientPart part.old }
    ensures { Did (sweep client_words drop_vector most_servers) part.old part.new }
{
    for s in 0..8 {
        drop_vector(part, s);
    }
}

// All copies.
pub fn drop_all(part: &mut [u8])
    requires { ClientPart part.old }
    ensures { Did drop_all part.old part.new }
{
    set_field(part, META_STATES, 0);
    drop_nodes(part);
    drop_vectors(part);
}
