// A node of 15 keys splits: "The left half keeps the name; but a split root keeps its name as parent and both halves get new ones."
ghost use Rattle.std.specs.Prelude.{◌-◌, ◌<◌, ◌≤◌};
ghost use Rattle.client.specs.Lent.{own_count};
ghost use Rattle.client.specs.Bounds.{end_of_names, own_most, most_keys, risen_most};
ghost use Rattle.walk.specs.Ask.{OwnGood, Writing, Rising, over_lent};
ghost use Rattle.change.specs.Rise.{Under, Full};
ghost use Rattle.change.specs.Split.{HalfTaken, Overfull, Halved, Divided, Splits};

use crate::rise::write_halves;
use nodes::change::Wide;
use walk::down::Turn;
use walk::search::take_for;
use walk::take::take_node;
use walk::walk::Stop;

// A slot for a half of a node, by its name, and its node, which must be free.
fn take_half(
    part: &[u8],
    slots: usize,
    own: &mut [u64],
    used: &mut [u64],
    name: u64,
) -> Result<u64, Stop>
    requires writing { Writing part.now own.old used.old own_most }
    requires there { name < end_of_names }
    ensures { over_lent HalfTaken slots part own used name result own.new used.new }
{
    let half = take_for(part, slots, own, used, name)?;
    take_node(part, slots, own, used, half)?;
    Ok(half)
}

// A node's halves are written; the result is the separator between them.
pub fn halve(own: &mut [u64], left: u64, right: u64, n: Wide) -> u64
    requires left_lt_end_of_names { (left < end_of_names) × (right < end_of_names) × OwnGood own.old × (own_count own.old < own_most - 1) }
    requires full { Overfull n }
    ensures { Halved own.old left right n result own.new }
{
    let h = n.split(0);
    write_halves(own, left, right, h);
    h.sep
}

// A child's halves are written; the result is its parent with the right one as one more child.
fn divide(own: &mut [u64], above: Turn, left: u64, right: u64, n: Wide) -> Wide
    requires left_lt_end_of_names { (left < end_of_names) × (right < end_of_names) × OwnGood own.old × (own_count own.old < own_most - 1) }
    requires parent { (above.node.count ≤ most_keys) × (above.at ≤ above.node.count) }
    requires full { Overfull n }
    ensures { Divided own.old above left right n result own.new }
{
    let sep = halve(own, left, right, n);
    above.node.put_in(above.at, sep, right)
}

// Below the root: the right half is a new node, and the parent gets one more child. The result is its new content.
pub fn split(
    part: &[u8],
    slots: usize,
    own: &mut [u64],
    used: &mut [u64],
    level: usize,
    above: Turn,
    name: u64,
    n: Wide,
) -> Result<Wide, Stop>
    requires rising { Rising part.now own.old used.old risen_most }
    requires under { Under slots level name above }
    requires full { Full level n }
    ensures { over_lent Splits slots part own used level above name n result own.new used.new }
{
    let right = take_half(part, slots, own, used, name)?;
    Ok(divide(own, above, name, right, n))
}
