// Changes carried up from a leaf, "level by level from the lowest": the writes, and what one level hands to the next.
ghost use Rattle.std.specs.Prelude.{◌≡◌, ◌-◌, ◌<◌, ◌≤◌};
ghost use Rattle.client.specs.Lent.{own_count};
ghost use Rattle.client.specs.Bounds.{end_of_names, own_most, most_keys};
ghost use Rattle.walk.specs.Ask.{OwnGood};
ghost use Rattle.change.specs.Rise.{NodeWritten, Fitting, BothWritten, widened};

use client::own::put_own;
use nodes::arrays::joined;
use nodes::change::{Halves, Wide};
use nodes::node::Node;
use walk::walk::{Answer, node_number};

// What comes of one level: the new content of the parent, or the operation's answer, whose writes are then all in the lent list.
#[derive(Clone, Copy)]
pub enum Risen {
    Up(Wide),
    Done(Answer),
}

// A node is written under its name, as the record of its keys and slots.
pub fn write_node(own: &mut [u64], name: u64, n: Node)
    requires { (name < end_of_names) × OwnGood own.old × (own_count own.old < own_most) × (n.count ≤ most_keys) }
    ensures { NodeWritten own.old name n own.new }
{
    put_own(own, node_number(name), n.with_version(0));
}

// The two parts of a node, or of two neighbours: the left one is written first.
pub fn write_halves(own: &mut [u64], left: u64, right: u64, h: Halves)
    requires left_lt_end_of_names { (left < end_of_names) × (right < end_of_names) × OwnGood own.old × (own_count own.old < own_most - 1) }
    requires halves { Fitting h }
    ensures { BothWritten own.old left right h own.new }
{
    write_node(own, left, h.left);
    write_node(own, right, h.right);
}

// A node's keys and slots, as the content that goes up.
pub fn widen(n: Node) -> Wide
    requires { n.count ≤ most_keys }
    ensures value { result ≡ widened n }
    ensures size { result.count ≡ n.count }
{
    let e = n.extra();
    Wide {
        kind: n.kind,
        level: n.level,
        version: n.version,
        count: n.count,
        keys: joined(&n.keys, n.count, &n.keys, 0, 0),
        slots: joined(&n.slots, n.count + e, &n.slots, 0, 0),
    }
}
