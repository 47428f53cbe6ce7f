// Records of objects, and which of them are out of range.
ghost use Rattle.std.specs.Prelude.{◌≡◌, ◌≤◌};
ghost use Rattle.client.specs.Record.{single, metadata, record_in_range, children_there, node_fits, whole_in_range, kind_in_range};
ghost use Rattle.client.specs.Bounds.{most_keys};

use nodes::name::in_store;
use nodes::node::Node;
use nodes::object::Object;
use nodes::states::metadata_fits;

// A record of a flag: its value stands in the first slot.
pub fn single(version: u64, value: u64) -> Node
    ensures { result ≡ single version value }
{
    let mut slots = [0u64; 15];
    slots[0] = value;
    Node {
        slots,
        ..Node::free(version)
    }
}

// A record of the metadata: the root's name stands in the first slot, the servers' states in the second.
pub fn metadata(version: u64, root: u64, states: u64) -> Node
    ensures { result ≡ metadata version root states }
{
    let mut slots = [0u64; 15];
    slots[0] = root;
    slots[1] = states;
    Node {
        slots,
        ..Node::free(version)
    }
}

// May the record of the object with that number be used?
pub fn fits(slots: usize, number: u64, n: Node) -> bool
    ensures { result ≡ record_in_range slots number n }
{
    match Object::from(number) {
        Object::Metadata => metadata_fits(slots, n.slots[0], n.slots[1], n.version),
        Object::Node(_) => n.in_range(),
        Object::Flag(_) => n.slots[0] <= 1,
    }
}

// Are an inner node's children names of the store?
fn children_there(slots: usize, n: Node) -> bool
    requires { n.count ≤ most_keys }
    ensures { result ≡ children_there slots n }
{
    n.kind != 2
        || n.slots[..n.count + 1]
            .iter()
            .all(|child| in_store(slots, *child))
}

// May a node be handed out or stored whole?
pub fn node_fits(slots: usize, n: Node) -> bool
    ensures { result ≡ node_fits slots n }
{
    n.in_range() && children_there(slots, n)
}

// May the record of the object with that number be stored whole?
pub fn whole_fits(slots: usize, number: u64, n: Node) -> bool
    ensures { result ≡ whole_in_range slots number n }
{
    match Object::from(number) {
        Object::Node(_) => node_fits(slots, n),
        _ => fits(slots, number, n),
    }
}

// Is the kind of the object with that number in range? Only a node has one.
pub fn kind_fits(number: u64, n: Node) -> bool
    ensures { result ≡ kind_in_range number n }
{
    match Object::from(number) {
        Object::Node(_) => n.kind <= 2,
        _ => true,
    }
}
