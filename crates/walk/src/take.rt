// Slots taken and freed: their flags and nodes are read and written.
ghost use Rattle.std.specs.Prelude.{◌<◌, ◌-◌, false};
ghost use Rattle.operations.specs.Object.{node, flag, taken, free};
ghost use Rattle.client.specs.Lent.{own_count};
ghost use Rattle.client.specs.Bounds.{end_of_names, own_most};
ghost use Rattle.walk.specs.Walk.{course};
ghost use Rattle.walk.specs.Ask.{OwnGood, WalkingOwn, Writing, over_lent, over_own};
ghost use Rattle.walk.specs.Take.{NodeTaken, FlagTaken, Wrote, Released};

use crate::walk::{Stop, flag_number, node_number, see_flag, see_node};
use client::own::put_own;
use client::range::single;
use nodes::node::Node;

// "A taken slot's node is read too, and must be free."
pub fn take_node(
    part: &[u8],
    slots: usize,
    own: &[u64],
    used: &mut [u64],
    name: u64,
) -> Result<(), Stop>
    requires { WalkingOwn part.now own.now used.old }
    ensures { over_own NodeTaken slots part own used name (course result) used.new }
{
    let node = see_node(part, slots, own, used, name)?;
    if node.kind != 0 {
        return Err(Stop::Aborts(1));
    }
    Ok(())
}

// The flag of a slot to be taken: it must be free, and is then taken.
pub fn take_flag(
    part: &[u8],
    slots: usize,
    own: &mut [u64],
    used: &mut [u64],
    name: u64,
) -> Result<(), Stop>
    requires { Writing part.now own.old used.old own_most }
    ensures { over_lent FlagTaken slots part own used name (course result) own.new used.new }
{
    let taken = see_flag(part, slots, own, used, name)?;
    if taken {
        return Err(Stop::Aborts(1));
    }
    let number = flag_number(name);
    put_own(own, number, single(0, 1));
    Ok(())
}

fn free_flag(own: &mut [u64], name: u64)
    requires { (name < end_of_names) × OwnGood own.old × (own_count own.old < own_most) }
    ensures { Wrote own.old (flag name) (taken false) own.new }
{
    let number = flag_number(name);
    put_own(own, number, single(0, 0));
}

fn free_node(own: &mut [u64], name: u64)
    requires { (name < end_of_names) × OwnGood own.old × (own_count own.old < own_most) }
    ensures { Wrote own.old (node name) free own.new }
{
    let number = node_number(name);
    put_own(own, number, Node::free(0));
}

// A node freed: its flag is read, and both are written.
pub fn release(
    part: &[u8],
    slots: usize,
    own: &mut [u64],
    used: &mut [u64],
    name: u64,
) -> Result<(), Stop>
    requires { Writing part.now own.old used.old (own_most - 1) }
    ensures { over_lent Released slots part own used name (course result) own.new used.new }
{
    see_flag(part, slots, own, used, name)?;
    free_flag(own, name);
    free_node(own, name);
    Ok(())
}
