// What a fetched object does to the read set and the copies.
ghost use Rattle.std.specs.Prelude.{◌<◌};
ghost use Rattle.client.specs.Part.{Did};
ghost use Rattle.client.specs.Fetched.{fetched_meta, fetched_node, fetched_vector, copy_inner, mark_fetched};
ghost use Rattle.client.specs.Layout.{ClientPart};
ghost use Rattle.client.specs.Bounds.{most_servers, end_of_names};

use crate::copies::copy_node;
use crate::enter::enter_read;
use crate::part::{FETCHED_VECTORS, META_STATES, get_field, set_field, set_fields, set_vector};
use crate::range::metadata;
use memory::bits::with;
use nodes::node::Node;

pub fn fetched_meta(part: &mut [u8], root: u64, states: u64, version: u64)
    requires { ClientPart part.old }
    ensures { Did (fetched_meta root states version) part.old part.new }
{
    enter_read(part, 0, metadata(version, root, states));
    set_fields(part, META_STATES, &[states, root, version]);
}

// An inner node is copied.
fn copy_inner(part: &mut [u8], number: u64, n: Node)
    requires { ClientPart part.old }
    ensures { Did (copy_inner number n) part.old part.new }
{
    if n.kind == 2 {
        copy_node(part, number, n);
    }
}

pub fn fetched_node(part: &mut [u8], name: u64, n: Node)
    requires { (name < end_of_names) × ClientPart part.old }
    ensures { Did (fetched_node name n) part.old part.new }
{
    enter_read(part, 1 + name, n);
    copy_inner(part, 1 + name, n);
}

fn mark_fetched(part: &mut [u8], s: usize)
    requires { (s < most_servers) × ClientPart part.old }
    ensures { Did (mark_fetched s) part.old part.new }
{
    let marks = with(get_field(part, FETCHED_VECTORS), s as u32);
    set_field(part, FETCHED_VECTORS, marks);
}

pub fn fetched_vector(part: &mut [u8], s: usize, words: [u64; 16])
    requires { (s < most_servers) × ClientPart part.old }
    ensures { Did (fetched_vector s words) part.old part.new }
{
    set_vector(part, s, words);
    mark_fetched(part, s);
}
