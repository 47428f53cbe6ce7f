// The work step of an operation that only reads. It is lent no list of own writes.
ghost use Rattle.std.specs.Prelude.{◌≡◌, ◌≤◌, length, get_or, []};
ghost use Rattle.client.specs.Layout.{op_number, op_value, ClientPart};
ghost use Rattle.client.specs.Sets.{held};
ghost use Rattle.client.specs.Bounds.{used_room, found_room};
ghost use Rattle.walk.specs.declared.operation.Operation.TheVariants.{Read, Listing};
ghost use Rattle.walk.specs.Operation.{operation_of};
ghost use Rattle.walk.specs.Stopped.{Waiting};
ghost use Rattle.walk.specs.Walk.{answer_course};
ghost use Rattle.walk.specs.Ask.{Walking, over_read};
ghost use Rattle.walk.specs.Lookup.{Walks};
ghost use Rattle.walk.specs.Look.{near_on, near_plan, Looks};
ghost use Rattle.walk.specs.Found.{Roomy, left_pairs};

use crate::found::{Sought, Wish};
use crate::lookup::lookup;
use crate::operation::Query;
use crate::seek::{by_path, near};
use crate::walk::{Answer, Stop};
use client::part::{OP_KEY, OP_VALUE, get_field};

fn near_on(right: bool) -> Sought
    ensures { result ≡ near_on right }
{
    if right {
        return Sought::Higher;
    }
    Sought::Lower
}

// Next to the right, previous to the left: one pair is sought.
fn near_one(
    part: &[u8],
    slots: usize,
    used: &mut [u64],
    right: bool,
    key: u64,
) -> Result<Answer, Stop>
    requires { Walking part.now used.old × (get_or used.old 0 0 ≡ 0) }
    ensures { over_read Walks slots part used (near_plan right key) (answer_course result) used.new [] }
{
    let sought = near_on(right);
    let w = Wish {
        sought,
        wanted: 1,
        key,
    };
    let mut found = [0u64; 3];
    near(part, slots, used, w, &mut found)
}

// `used` is lent empty; it has the copies in use afterwards.
pub fn look(part: &[u8], slots: usize, used: &mut [u64], op: Query) -> Result<Answer, Stop>
    requires used_room_in_bounds { (used_room ≤ length used.old) × (get_or used.old 0 0 ≡ 0) × ClientPart part.now }
    requires waits { Waiting (held part.now) × (operation_of (held part.now op_number) ≡ Read op) }
    ensures { Looks slots (held part.now) (answer_course result) used.old used.new [] }
{
    let key = get_field(part, OP_KEY);
    match op {
        Query::Lookup => lookup(part, slots, used, key),
        Query::Next => near_one(part, slots, used, true, key),
        Query::Previous => near_one(part, slots, used, false, key),
    }
}

// "up to a given count of pairs (the value field, 1 to 32), from the given key upward". `found` is lent empty too; it has the pairs afterwards.
pub fn list(part: &[u8], slots: usize, used: &mut [u64], found: &mut [u64]) -> Result<Answer, Stop>
    requires used_room_in_bounds { (used_room ≤ length used.old) × (get_or used.old 0 0 ≡ 0) × ClientPart part.now }
    requires waits { Waiting (held part.now) × (operation_of (held part.now op_number) ≡ Listing) }
    requires room { (found_room ≤ length found.old) × (get_or found.old 0 0 ≡ 0) }
    ensures looks { Looks slots (held part.now) (answer_course result) used.old used.new (left_pairs found) }
    ensures within { Roomy (held part.now op_value) found.new }
{
    let w = Wish {
        sought: Sought::AtLeast,
        wanted: get_field(part, OP_VALUE) as usize,
        key: get_field(part, OP_KEY),
    };
    by_path(part, slots, used, w, found)
}
