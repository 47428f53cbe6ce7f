// The walk of a client's waiting operation, over its part of the memory.
ghost use Rattle.std.specs.Prelude.{◌≡◌, ◌≤◌, length, get_or, []};
ghost use Rattle.memory.specs.Word.{view};
ghost use Rattle.client.specs.Layout.{op_number, op_value};
ghost use Rattle.client.specs.Bounds.{used_room, found_room};
ghost use Rattle.walk.specs.declared.operation.Operation.TheVariants.{Read, Listing, Write};
ghost use Rattle.walk.specs.Walk.{answer_course};
ghost use Rattle.walk.specs.Found.{Roomy, left_pairs};
ghost use Rattle.walk.specs.Operation.{operation_of};
ghost use Rattle.walk.specs.Look.{Looks};
ghost use Rattle.change.specs.Work.{Ready, WorksOn};
ghost use Rattle.change.specs.Single.{WorksSingly};
ghost use Rattle.kinds.specs.Parts.{AtClient};
ghost use Rattle.kinds.specs.Judge.{of_client};
ghost use Rattle.engine.specs.Work.{WaitsFor, over_client};

use change::single::{Single, write_single};
use change::work::work;
use kinds::whole::client_at;
use steps::sizes::Sizes;
use walk::look::{list, look};
use walk::operation::{Operation, Query, Update, waiting};
use walk::walk::{Answer, Stop};

// The operation that waits.
pub fn waiting_at(mem: &[u8], sizes: Sizes, client: usize) -> Operation
    requires { AtClient sizes (length mem.now) client }
    ensures { result ≡ operation_of (of_client sizes (view mem.now) client op_number) }
{
    let at = 8 * client_at(sizes, client);
    waiting(&mem[at..])
}

// An operation that only reads: no list of own writes is lent, and the other one is empty.
pub fn look_at(
    mem: &[u8],
    sizes: Sizes,
    client: usize,
    used: &mut [u64],
    op: Query,
) -> Result<Answer, Stop>
    requires at_client { AtClient sizes (length mem.now) client × (used_room ≤ length used.old) × (get_or used.old 0 0 ≡ 0) }
    requires waits { WaitsFor sizes mem.now client (Read op) }
    ensures { over_client Looks sizes mem client (answer_course result) used.old used.new [] }
{
    let at = 8 * client_at(sizes, client);
    look(&mem[at..], sizes.slots, used, op)
}

// A list: another list is lent, which has the pairs afterwards.
pub fn list_at(
    mem: &[u8],
    sizes: Sizes,
    client: usize,
    used: &mut [u64],
    found: &mut [u64],
) -> Result<Answer, Stop>
    requires at_client { AtClient sizes (length mem.now) client × (used_room ≤ length used.old) × (get_or used.old 0 0 ≡ 0) }
    requires waits { WaitsFor sizes mem.now client Listing }
    requires room { (found_room ≤ length found.old) × (get_or found.old 0 0 ≡ 0) }
    ensures over_client { over_client Looks sizes mem client (answer_course result) used.old used.new (left_pairs found) }
    ensures within { Roomy (of_client sizes (view mem.now) client op_value) found.new }
{
    let at = 8 * client_at(sizes, client);
    list(&mem[at..], sizes.slots, used, found)
}

// One that writes: None where that is more than one object. The list is lent empty.
pub fn single_at(
    mem: &[u8],
    sizes: Sizes,
    client: usize,
    used: &mut [u64],
    op: Update,
) -> Result<Option<Single>, Stop>
    requires at_client { AtClient sizes (length mem.now) client × (used_room ≤ length used.old) × (get_or used.old 0 0 ≡ 0) }
    requires waits { WaitsFor sizes mem.now client (Write op) }
    ensures { over_client WorksSingly sizes mem client result used.old used.new }
{
    let at = 8 * client_at(sizes, client);
    write_single(&mem[at..], sizes.slots, used, op)
}

// Any that writes: both lists are lent empty.
pub fn walk_at(
    mem: &[u8],
    sizes: Sizes,
    client: usize,
    own: &mut [u64],
    used: &mut [u64],
    op: Update,
) -> Result<Answer, Stop>
    requires at_client { AtClient sizes (length mem.now) client × Ready own.old used.old }
    requires waits { WaitsFor sizes mem.now client (Write op) }
    ensures { over_client WorksOn sizes mem client (answer_course result) own used }
{
    let at = 8 * client_at(sizes, client);
    work(&mem[at..], sizes.slots, own, used, op)
}
