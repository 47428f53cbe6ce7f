// Objects enter the read set and the write set.
ghost use Rattle.std.specs.Prelude.{◌<◌};
ghost use Rattle.client.specs.Part.{Did};
ghost use Rattle.client.specs.Lent.{InUse, used_in, OwnFits, own_list};
ghost use Rattle.client.specs.Enter.{enter_read, enter_copy, enter_write, write_nth, enter_entries};
ghost use Rattle.client.specs.Answered.{used_enter};
ghost use Rattle.client.specs.Layout.{ClientPart};
ghost use Rattle.client.specs.Bounds.{end_of_numbers, own_most};

use crate::lookup::copied_record;
use crate::own::own_record;
use crate::part::{
    ITEM_WORDS, MOST_READ, MOST_WRITTEN, READS_COUNT, Set, WRITES_COUNT, count, find, set_field,
    set_item,
};
use crate::used::in_use;
use nodes::node::Node;

// An object with its record as read. Nothing is done where there are 96.
pub fn enter_read(part: &mut [u8], number: u64, n: Node)
    requires { ClientPart part.old }
    ensures { Did (enter_read number n) part.old part.new }
{
    let c = count(part, Set::Reads);
    if c >= MOST_READ {
        return;
    }
    set_item(part, Set::Reads, c, number, n);
    set_field(part, READS_COUNT, c as u64 + 1);
}

// A copy that came into use.
fn enter_copy(part: &mut [u8], number: u64)
    requires { (number < end_of_numbers) × ClientPart part.old }
    ensures { Did (enter_copy number) part.old part.new }
{
    enter_read(part, number, copied_record(part, number));
}

// All copies that came into use.
pub fn enter_used(part: &mut [u8], used: &[u64])
    requires { InUse used.now × ClientPart part.old }
    ensures { Did (used_enter (used_in used.now)) part.old part.new }
{
    for number in in_use(used) {
        enter_copy(part, *number);
    }
}

// A written object: in its place, else behind the others. Nothing is done where there are 48.
pub fn enter_write(part: &mut [u8], number: u64, n: Node)
    requires { ClientPart part.old }
    ensures { Did (enter_write number n) part.old part.new }
{
    if let Some(i) = find(part, Set::Writes, number) {
        set_item(part, Set::Writes, i, number, n);
        return;
    }
    let c = count(part, Set::Writes);
    if c >= MOST_WRITTEN {
        return;
    }
    set_item(part, Set::Writes, c, number, n);
    set_field(part, WRITES_COUNT, c as u64 + 1);
}

// The operation's own write i.
fn write_nth(part: &mut [u8], own: &[u64], i: usize)
    requires { (i < own_most) × OwnFits own.now × ClientPart part.old }
    ensures { Did (write_nth own.now i) part.old part.new }
{
    enter_write(part, own[ITEM_WORDS * i + 1], own_record(own, i));
}

// The operation's own writes.
pub fn enter_writes(part: &mut [u8], own: &[u64])
    requires { OwnFits own.now × ClientPart part.old }
    ensures { Did (enter_entries (own_list own.now)) part.old part.new }
{
    for i in 0..own[0] as usize {
        write_nth(part, own, i);
    }
}
