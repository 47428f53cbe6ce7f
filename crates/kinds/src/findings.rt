// What a check of the objects read finds at a server: the failing one with the least number decides.
ghost use Rattle.std.specs.Prelude.{◌≡◌, ◌<◌, length};
ghost use Rattle.memory.specs.Word.{view};
ghost use Rattle.server.specs.Check.{finding_number};
ghost use Rattle.steps.specs.Uses.{use_of, reason_of};
ghost use Rattle.kinds.specs.Parts.{AtClient, ObjectAt, ObjectFor};
ghost use Rattle.kinds.specs.Items.{as_item};
ghost use Rattle.kinds.specs.Fits.{KnownAt};
ghost use Rattle.kinds.specs.Findings.{faulted, as_pair, as_fault, or_later, later, word_reason, lock_reason, compared_at, mark_reason, prepare_reason, prepare_fault, prepare_found};

use crate::fits::{lowest, reads_of};
use crate::items::{Item, is_checked_at, is_locked};
use crate::judge::{item_at, lock_word, word_fits};
use crate::whole::server_part;
use nodes::object::Object;
use server::check::{Finding, compare};
use server::lock::{Use, is_busy};
use steps::sizes::Sizes;

// What stands in the way of a step at a server: what it reads is out of range, which refuses it by 10, or a reason to abort: "1 a checked object
// differs", or the server is absent, "2 it is locked against this use by another client", or 4, one object too many would be read.
#[derive(Clone, Copy)]
pub enum Fault {
    Damaged,
    Differs,
    Busy,
    TooMany,
}

// The fault of an object, by its number.
#[derive(Clone, Copy)]
pub struct Found {
    pub number: u64,
    pub fault: Fault,
}

// Of two faults that of the lesser object, of one object the first.
fn lesser(best: Option<Found>, next: Found) -> Option<Found>
    ensures { as_fault result ≡ or_later (as_fault best) (as_pair next) }
{
    if let Some(first) = best {
        if first.number <= next.number {
            return best;
        }
    }
    Some(next)
}

// With what is found of one more object.
pub fn with_found(best: Option<Found>, number: u64, found: Result<(), Fault>) -> Option<Found>
    ensures { as_fault result ≡ later (as_fault best) number (faulted found) }
{
    match found {
        Ok(()) => best,
        Err(fault) => lesser(best, Found { number, fault }),
    }
}

// What all of it comes to.
pub fn decided(best: Option<Found>) -> Result<(), Fault>
    ensures { faulted result ≡ reason_of (as_fault best) }
{
    match best {
        Some(found) => Err(found.fault),
        None => Ok(()),
    }
}

// A finding as a fault, or none.
fn judged(finding: Finding) -> Result<(), Fault>
    ensures { faulted result ≡ finding_number finding }
{
    match finding {
        Finding::Same => Ok(()),
        Finding::Differs => Err(Fault::Differs),
        Finding::Busy => Err(Fault::Busy),
        Finding::Unfit => Err(Fault::Damaged),
    }
}

// What a transaction wants of an object at its prepare.
fn use_of(item: Item) -> Use
    ensures { result ≡ use_of (as_item item) }
{
    if item.written {
        return Use::Write;
    }
    Use::Read
}

// Does the word of an object's lock leave a client the use of the object?
fn word_allows(
    mem: &[u8],
    sizes: Sizes,
    client: usize,
    number: u64,
    word: u64,
    wanted: Use,
) -> Result<(), Fault>
    requires { AtClient sizes (length mem.now) client }
    ensures { faulted result ≡ word_reason sizes (view mem.now) client number word wanted }
{
    if !word_fits(mem, sizes, number, word) {
        return Err(Fault::Damaged);
    }
    if is_busy(word, client as u32, wanted) {
        return Err(Fault::Busy);
    }
    Ok(())
}

// Does its lock at a server? Of a word that is 0 nobody needs to ask: there is no lock.
pub fn lock_allows(
    mem: &[u8],
    sizes: Sizes,
    client: usize,
    server: usize,
    number: u64,
    wanted: Use,
) -> Result<(), Fault>
    requires { ObjectFor sizes (length mem.now) client server number }
    ensures { faulted result ≡ lock_reason sizes (view mem.now) client server number wanted }
{
    let word = lock_word(mem, sizes, server, number);
    if word == 0 {
        return Ok(());
    }
    word_allows(mem, sizes, client, number, word, wanted)
}

// What the marks of an item say at a server, that which stands there and that which was read.
pub fn compared_at(mem: &[u8], sizes: Sizes, server: usize, item: Item) -> Result<(), Fault>
    requires { ObjectAt sizes (length mem.now) server item.number }
    ensures { faulted result ≡ compared_at sizes (view mem.now) server (as_item item) }
{
    let object = Object::from(item.number);
    let finding = compare(
        server_part(mem, sizes, server),
        sizes.slots,
        object,
        item.inner,
        item.mark,
    );
    judged(finding)
}

// What they say of an item that is checked there.
fn marks_allow(
    mem: &[u8],
    sizes: Sizes,
    server: usize,
    checked: bool,
    item: Item,
) -> Result<(), Fault>
    requires { ObjectAt sizes (length mem.now) server item.number }
    ensures { faulted result ≡ mark_reason sizes (view mem.now) server checked (as_item item) }
{
    if checked {
        return compared_at(mem, sizes, server, item);
    }
    Ok(())
}

// What a prepare at a server finds of an item that is locked there: its lock, and who holds it; then its mark, if it is checked there.
fn locked_allows(
    mem: &[u8],
    sizes: Sizes,
    client: usize,
    server: usize,
    checked: bool,
    item: Item,
) -> Result<(), Fault>
    requires { ObjectFor sizes (length mem.now) client server item.number }
    ensures { faulted result ≡ prepare_reason sizes (view mem.now) client server checked (as_item item) }
{
    lock_allows(mem, sizes, client, server, item.number, use_of(item))?;
    marks_allow(mem, sizes, server, checked, item)
}

// What it finds of any item: its kinds say whether it is locked there, and if not there is no fault.
fn item_allows(
    mem: &[u8],
    sizes: Sizes,
    client: usize,
    server: usize,
    low: u64,
    item: Item,
) -> Result<(), Fault>
    requires { ObjectFor sizes (length mem.now) client server item.number }
    ensures { faulted result ≡ prepare_fault sizes (view mem.now) client server low (as_item item) }
{
    if !item.known {
        return Err(Fault::Damaged);
    }
    if !item.settled {
        return Err(Fault::Damaged);
    }
    let checked = is_checked_at(item, low, server as u64);
    if is_locked(item, checked) {
        return locked_allows(mem, sizes, client, server, checked, item);
    }
    Ok(())
}

// What a prepare at a server finds of all objects read.
pub fn check_prepare(mem: &[u8], sizes: Sizes, client: usize, server: usize) -> Result<(), Fault>
    requires { KnownAt sizes mem.now client server }
    ensures { faulted result ≡ prepare_found sizes (view mem.now) client server }
{
    let low = lowest(mem, sizes, client);
    let mut best = None;
    for i in 0..reads_of(mem, sizes, client) {
        let item = item_at(mem, sizes, client, i);
        let found = item_allows(mem, sizes, client, server, low, item);
        best = with_found(best, item.number, found);
    }
    decided(best)
}
