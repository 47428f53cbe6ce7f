// A root of 15 keys splits: "a split root keeps its name as parent and both halves get new ones".
ghost use Rattle.std.specs.Prelude.{◌≡◌, true, ◌+◌, ◌-◌, ◌<◌, ◌≤◌};
ghost use Rattle.nodes.specs.Entries.{wide_entries};
ghost use Rattle.client.specs.Record.{in_store};
ghost use Rattle.client.specs.Lent.{own_count};
ghost use Rattle.client.specs.Bounds.{end_of_names, highest_level, own_most, risen_most};
ghost use Rattle.walk.specs.Walk.{answer_course, course};
ghost use Rattle.walk.specs.Ask.{OwnGood, Writing, WalkingOwn, Rising, over_lent, over_own};
ghost use Rattle.change.specs.Rise.{Full, Closes, no_pairs};
ghost use Rattle.change.specs.Split.{Overfull};
ghost use Rattle.change.specs.Grow.{TwoTaken, BothFree, HalvesTaken, Grown, root_split};

use crate::rise::write_node;
use crate::split::halve;
use nodes::change::Wide;
use nodes::node::Node;
use walk::lookup::answers;
use walk::search::take_for;
use walk::take::take_node;
use walk::walk::{Answer, Stop};

// Two slots, by their names.
#[derive(Clone, Copy)]
pub struct Two {
    pub left: u64,
    pub right: u64,
}

// "Of a root's halves the left is placed first."
fn take_two(
    part: &[u8],
    slots: usize,
    own: &mut [u64],
    used: &mut [u64],
    name: u64,
) -> Result<Two, Stop>
    requires writing { Writing part.now own.old used.old (own_most - 1) }
    requires there { name < end_of_names }
    ensures { over_lent TwoTaken slots part own used name result own.new used.new }
{
    let left = take_for(part, slots, own, used, name)?;
    let right = take_for(part, slots, own, used, name)?;
    Ok(Two { left, right })
}

// The nodes of both slots, which must be free.
fn both_free(part: &[u8], slots: usize, own: &[u64], used: &mut [u64], t: Two) -> Result<(), Stop>
    requires { WalkingOwn part.now own.now used.old }
    ensures { over_own BothFree slots part own used t.left t.right (course result) used.new }
{
    take_node(part, slots, own, used, t.left)?;
    take_node(part, slots, own, used, t.right)
}

// The slots and the nodes of both halves.
fn take_halves(
    part: &[u8],
    slots: usize,
    own: &mut [u64],
    used: &mut [u64],
    name: u64,
) -> Result<Two, Stop>
    requires writing { Writing part.now own.old used.old (own_most - 1) }
    requires there { name < end_of_names }
    ensures { over_lent HalvesTaken slots part own used name result own.new used.new }
{
    let t = take_two(part, slots, own, used, name)?;
    both_free(part, slots, own, used, t)?;
    Ok(t)
}

// The halves are written, and the root anew as their parent.
fn grow(own: &mut [u64], name: u64, t: Two, n: Wide)
    requires left_lt_end_of_names { (t.left < end_of_names) × (t.right < end_of_names) × OwnGood own.old × (own_count own.old < own_most - 2) }
    requires there { name < end_of_names }
    requires full { Overfull n }
    ensures { Grown own.old name t.left t.right n own.new }
{
    let sep = halve(own, t.left, t.right, n);
    let root = Node::over(n.level + 1, 0, t.left, sep, t.right);
    write_node(own, name, root);
}

pub fn split_root(
    part: &[u8],
    slots: usize,
    own: &mut [u64],
    used: &mut [u64],
    level: usize,
    name: u64,
    n: Wide,
    answer: Answer,
) -> Result<Answer, Stop>
    requires rising { Rising part.now own.old used.old risen_most }
    requires there { in_store slots name ≡ true }
    requires full { Full level n }
    requires low { level ≤ highest_level }
    ensures { Closes slots part own used (root_split slots (no_pairs answer) level name (wide_entries n 0)) (answer_course result) }
{
    let t = take_halves(part, slots, own, used, name)?;
    grow(own, name, t, n);
    answers(part, used, answer)
}
