// A node left with 6 keys turns to a neighbour under the same parent: a key moves over, or the two merge.
ghost use Rattle.std.specs.Prelude.{◌≡◌, true, ◌+◌, ◌<◌, ◌≤◌, ◌-◌};
ghost use Rattle.nodes.specs.Entries.{entries_of};
ghost use Rattle.client.specs.Record.{in_store};
ghost use Rattle.walk.specs.Ask.{SmallNode, Rising, over_lent};
ghost use Rattle.change.specs.Rise.{Under, OfLevel, neighbour_plan, Raises, no_pairs};
ghost use Rattle.change.specs.Beside.{far_side};
ghost use Rattle.change.specs.Lend.{lent, joined};
ghost use Rattle.change.specs.Merge.{Between, Neighbours, collapses, Collapses, Merges};
ghost use Rattle.change.specs.Neighbour.{Evens};
ghost use Rattle.client.specs.Bounds.{most_keys, fewest_keys, risen_most};

use crate::rise::{Risen, widen, write_halves, write_node};
use nodes::change::Halves;
use nodes::node::Node;
use walk::down::{Turn, see_child};
use walk::lookup::answers;
use walk::take::release;
use walk::walk::{Answer, Stop};

// Two neighbours by their names. The left one's number among the children is that of the separator between them; `last` says that
// the node which turns is the right one.
#[derive(Clone, Copy)]
struct Sides {
    at: usize,
    last: bool,
    left: u64,
    right: u64,
}

// "turns to its right neighbour under the same parent, or to the left one if it is the last child"
fn beside(above: Turn) -> Sides
    requires { (0 < above.node.count) × (above.at ≤ above.node.count) × (above.node.count ≤ most_keys) }
    ensures { Between above result }
{
    let parent = above.node;
    let at = parent.pair_at(above.at);
    Sides {
        at,
        last: above.at == parent.count,
        left: parent.slots[at],
        right: parent.slots[at + 1],
    }
}

fn far_side(last: bool, left: u64, right: u64) -> u64
    ensures { result ≡ far_side last left right }
{
    if last { left } else { right }
}

// "From 8 or more keys one moves over": from m to n.
fn lent(last: bool, n: Node, sep: u64, m: Node) -> Halves
    requires { (n.count ≤ fewest_keys - 1) × (fewest_keys < m.count) × (m.count ≤ most_keys) }
    ensures value { result ≡ lent last n sep m }
    ensures sizes { (result.left.count ≤ most_keys) × (result.right.count ≤ most_keys) }
{
    if last {
        return m.from_left(sep, n);
    }
    n.from_right(sep, m)
}

// "from 7 the two merge into the left one"
fn joined(last: bool, n: Node, sep: u64, m: Node) -> Node
    requires { (n.count ≤ fewest_keys - 1) × (m.count ≤ fewest_keys) }
    ensures value { result ≡ joined last n sep m }
    ensures size { result.count ≤ most_keys }
{
    if last {
        return m.merge(sep, n);
    }
    n.merge(sep, m)
}

// "An inner root left with no key takes over its only child's contents, and the child is freed."
fn collapse(
    part: &[u8],
    slots: usize,
    own: &mut [u64],
    used: &mut [u64],
    root: u64,
    child: u64,
    one: Node,
    answer: Answer,
) -> Result<Answer, Stop>
    requires rising { Rising part.now own.old used.old (risen_most + 2) }
    requires there { in_store slots root ≡ true }
    requires few { one.count ≤ most_keys }
    ensures { over_lent Collapses slots part own used (no_pairs answer) root child one result own.new used.new }
{
    release(part, slots, own, used, child)?;
    write_node(own, root, one);
    answers(part, used, answer)
}

// Does a parent with so many keys lose its last one as the root?
fn collapses(root: bool, count: usize) -> bool
    ensures { result ≡ collapses root count }
{
    root && count == 1
}

// The two merged into one, under the left one's name; "the right is freed".
fn merge(
    part: &[u8],
    slots: usize,
    own: &mut [u64],
    used: &mut [u64],
    root: bool,
    above: Turn,
    s: Sides,
    one: Node,
    answer: Answer,
) -> Result<Risen, Stop>
    requires rising { Rising part.now own.old used.old risen_most }
    requires beside { Neighbours slots above s }
    requires few { SmallNode one }
    ensures { over_lent Merges slots part own used root (no_pairs answer) above s one result own.new used.new }
{
    release(part, slots, own, used, s.right)?;
    let parent = above.node;
    if collapses(root, parent.count) {
        let end = collapse(part, slots, own, used, above.name, s.left, one, answer)?;
        return Ok(Risen::Done(end));
    }
    write_node(own, s.left, one);
    let p = parent.take_out(s.at);
    Ok(Risen::Up(widen(p)))
}

// With both neighbours at hand: n turns to m.
fn even_out(
    part: &[u8],
    slots: usize,
    own: &mut [u64],
    used: &mut [u64],
    root: bool,
    above: Turn,
    s: Sides,
    n: Node,
    m: Node,
    answer: Answer,
) -> Result<Risen, Stop>
    requires rising { Rising part.now own.old used.old risen_most }
    requires beside { Neighbours slots above s }
    requires turning { SmallNode n }
    requires far { SmallNode m }
    requires lacks { n.count ≤ fewest_keys - 1 }
    ensures { over_lent Evens slots part own used root (no_pairs answer) above s n m result own.new used.new }
{
    let parent = above.node;
    let sep = parent.keys[s.at];
    if 7 < m.count {
        let h = lent(s.last, n, sep, m);
        write_halves(own, s.left, s.right, h);
        let p = parent.with_key(s.at, h.sep);
        return Ok(Risen::Up(widen(p)));
    }
    let one = joined(s.last, n, sep, m);
    merge(part, slots, own, used, root, above, s, one, answer)
}

// "a non-root node left with 6 keys turns to .." a neighbour; "a node is its own neighbour": reason 3
pub fn neighbour(
    part: &[u8],
    slots: usize,
    own: &mut [u64],
    used: &mut [u64],
    level: usize,
    root: bool,
    above: Turn,
    name: u64,
    n: Node,
    answer: Answer,
) -> Result<Risen, Stop>
    requires rising { Rising part.now own.old used.old risen_most }
    requires under { Under slots level name above }
    requires of { OfLevel level n }
    requires lacks { n.count ≤ fewest_keys - 1 }
    ensures { Raises slots part own used level root (neighbour_plan (no_pairs answer) level above name (entries_of n)) result }
{
    if above.node.count == 0 {
        return Err(Stop::Aborts(3));
    }
    let s = beside(above);
    let other = far_side(s.last, s.left, s.right);
    if other == name {
        return Err(Stop::Aborts(3));
    }
    let m = see_child(part, slots, own, used, level as u64, other)?;
    even_out(part, slots, own, used, root, above, s, n, m, answer)
}
