// "A fetch checks at that server what the transaction has read": the read set and the copies that came into use in the step.
ghost use Rattle.std.specs.Prelude.{◌≡◌, ◌<◌, length};
ghost use Rattle.memory.specs.Word.{view};
ghost use Rattle.nodes.specs.Object.{object_of};
ghost use Rattle.server.specs.Object.{Has};
ghost use Rattle.client.specs.Sets.{held};
ghost use Rattle.client.specs.Lent.{used_in};
ghost use Rattle.kinds.specs.Parts.{AtClient, ObjectFor};
ghost use Rattle.kinds.specs.Items.{as_item};
ghost use Rattle.kinds.specs.Findings.{faulted};
ghost use Rattle.kinds.specs.Judge.{of_client};
ghost use Rattle.kinds.specs.Fetch.{used_item, known_at, fetch_fault, items_found, Checking, reached, room_of, gate_of, ReadingOne, ReadingFew};
ghost use Rattle.client.specs.Layout.{ClientPart};
ghost use Rattle.client.specs.Bounds.{end_of_numbers};

use crate::findings::{Fault, compared_at, decided, lock_allows, with_found};
use crate::fits::reads_of;
use crate::items::{Item, item_of};
use crate::judge::{field_of, item_at};
use crate::servers::is_there;
use crate::whole::client_part;
use client::lookup::copied_record;
use client::part::{MOST_READ, READS_COUNT};
use nodes::object::Object;
use server::check::can_check;
use server::lock::Use;
use steps::sizes::Sizes;

// A copy in use, as an object read.
fn used_item(part: &[u8], number: u64) -> Item
    requires { (number < end_of_numbers) × ClientPart part.now }
    ensures { as_item result ≡ used_item (held part.now) number }
{
    item_of(part, number, copied_record(part, number))
}

fn used_at(mem: &[u8], sizes: Sizes, client: usize, number: u64) -> Item
    requires { AtClient sizes (length mem.now) client × (number < end_of_numbers) }
    ensures { as_item result ≡ used_item (of_client sizes (view mem.now) client) number }
{
    used_item(client_part(mem, sizes, client), number)
}

// Object i of those read: the read set's, then the copies in use.
fn known_at(mem: &[u8], sizes: Sizes, client: usize, used: &[u64], i: usize) -> Item
    requires { ReadingOne sizes mem.now client used.now i }
    ensures { as_item result ≡ known_at (of_client sizes (view mem.now) client) (used_in used.now) i }
{
    let n = reads_of(mem, sizes, client);
    if i < n {
        return item_at(mem, sizes, client, i);
    }
    let number = used[i - n + 1];
    used_at(mem, sizes, client, number)
}

// What the check finds of an item: its kind says whether the server can check it; then its lock, and its mark.
fn item_allows(
    mem: &[u8],
    sizes: Sizes,
    client: usize,
    server: usize,
    item: Item,
) -> Result<(), Fault>
    requires { ObjectFor sizes (length mem.now) client server item.number }
    ensures { faulted result ≡ fetch_fault sizes (view mem.now) client server (as_item item) }
{
    if !item.known {
        return Err(Fault::Damaged);
    }
    let object = Object::from(item.number);
    if !can_check(server as u64, object, item.inner) {
        return Ok(());
    }
    lock_allows(mem, sizes, client, server, item.number, Use::Fetch)?;
    compared_at(mem, sizes, server, item)
}

// What it finds of all: "in the order metadata, nodes by name, flags by name".
fn check_all(
    mem: &[u8],
    sizes: Sizes,
    client: usize,
    server: usize,
    used: &[u64],
) -> Result<(), Fault>
    requires { Checking sizes mem.now client server used.now }
    ensures { faulted result ≡ items_found sizes (view mem.now) client server (used_in used.now) }
{
    let n = reads_of(mem, sizes, client) + used[0] as usize;
    let mut best = None;
    for i in 0..n {
        let item = known_at(mem, sizes, client, used, i);
        let found = item_allows(mem, sizes, client, server, item);
        best = with_found(best, item.number, found);
    }
    decided(best)
}

// "A fetch .. at an absent server aborts with 1", before all else.
pub fn check_from(
    mem: &[u8],
    sizes: Sizes,
    client: usize,
    server: usize,
    used: &[u64],
) -> Result<(), Fault>
    requires { Checking sizes mem.now client server used.now }
    ensures { faulted result ≡ reached sizes (view mem.now) client server (used_in used.now) }
{
    if !is_there(mem, sizes, server) {
        return Err(Fault::Differs);
    }
    check_all(mem, sizes, client, server, used)
}

// The limit of 96: those read and those in use.
fn has_room(mem: &[u8], sizes: Sizes, client: usize, used: &[u64]) -> Result<(), Fault>
    requires { ReadingFew sizes mem.now client used.now }
    ensures { faulted result ≡ room_of sizes (view mem.now) client (used_in used.now) }
{
    let read = field_of(mem, sizes, client, READS_COUNT) as usize;
    if MOST_READ <= read + used[0] as usize {
        return Err(Fault::TooMany);
    }
    Ok(())
}

// "then the object fetched"; then the limit of 96.
pub fn gate(
    mem: &[u8],
    sizes: Sizes,
    client: usize,
    server: usize,
    number: u64,
    used: &[u64],
) -> Result<(), Fault>
    requires { Checking sizes mem.now client server used.now × Has sizes.slots (object_of number) }
    ensures { faulted result ≡ gate_of sizes (view mem.now) client server number (used_in used.now) }
{
    lock_allows(mem, sizes, client, server, number, Use::Fetch)?;
    has_room(mem, sizes, client, used)
}
