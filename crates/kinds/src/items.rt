// What a transaction has read, as servers are asked about it: which object is checked where, and which is locked.
ghost use Rattle.std.specs.Prelude.{◌≡◌, ◌&&◌, ◌||◌, ◌<◌};
ghost use Rattle.client.specs.Record.{first_slot, second_slot};
ghost use Rattle.client.specs.Sets.{held};
ghost use Rattle.steps.specs.Uses.{item_of, checked_at, locked_at};
ghost use Rattle.kinds.specs.Items.{as_item, as_written, mark_of, read_item};
ghost use Rattle.client.specs.Layout.{ClientPart, limit};
ghost use Rattle.client.specs.declared.part.Set.TheVariants.{Reads};

use client::items::{is_home, is_inner};
use client::part::{Set, find, number_at, record_at};
use client::range::kind_fits;
use nodes::node::Node;

// An object read: metadata, or a node read as inner; its version, or a flag's value; is it written, and as an inner node; is its kind in
// range, as read and as written?
#[derive(Clone, Copy)]
pub struct Item {
    pub number: u64,
    pub inner: bool,
    pub mark: u64,
    pub written: bool,
    pub becomes: bool,
    pub known: bool,
    pub settled: bool,
}

// What the write set says of an object: is it there, as an inner node, with a kind in range? No Option: where nothing is written the last one is true,
// and an item needs all three.
#[derive(Clone, Copy)]
struct Written {
    there: bool,
    inner: bool,
    fits: bool,
}

// The root's name, or a flag.
pub fn first_slot(node: Node) -> u64
    ensures { result ≡ first_slot node }
{
    let slots = node.slots;
    slots[0]
}

// The second one: of the metadata the servers' states.
pub fn second_slot(node: Node) -> u64
    ensures { result ≡ second_slot node }
{
    let slots = node.slots;
    slots[1]
}

// That by which an object is checked.
fn mark_of(number: u64, node: Node) -> u64
    ensures { result ≡ mark_of number node }
{
    if number <= 8192 {
        return node.version;
    }
    first_slot(node)
}

fn as_written(part: &[u8], number: u64) -> Written
    requires { ClientPart part.now }
    ensures { result ≡ as_written (held part.now) number }
{
    let at = find(part, Set::Writes, number);
    match at {
        Some(i) => {
            let node = record_at(part, Set::Writes, i);
            Written {
                there: true,
                inner: is_inner(number, node),
                fits: kind_fits(number, node),
            }
        }
        None => Written {
            there: false,
            inner: false,
            fits: true,
        },
    }
}

pub fn item_of(part: &[u8], number: u64, node: Node) -> Item
    requires { ClientPart part.now }
    ensures { as_item result ≡ item_of (held part.now) number node }
{
    let inner = is_inner(number, node);
    let mark = mark_of(number, node);
    let known = kind_fits(number, node);
    let w = as_written(part, number);
    Item {
        number,
        inner,
        mark,
        written: w.there,
        becomes: w.inner,
        known,
        settled: w.fits,
    }
}

// Item i of the read set.
pub fn read_item(part: &[u8], i: usize) -> Item
    requires { (i < limit Reads) × ClientPart part.now }
    ensures { as_item result ≡ read_item (held part.now) i }
{
    let number = number_at(part, Set::Reads, i);
    let node = record_at(part, Set::Reads, i);
    item_of(part, number, node)
}

// "Metadata and inner nodes are checked at the lowest participant, and at every one if written"; other nodes and flags at home.
pub fn is_checked_at(item: Item, lowest: u64, server: u64) -> bool
    ensures { result ≡ checked_at lowest server (as_item item) }
{
    if item.inner {
        if server == lowest {
            return true;
        }
        return item.written;
    }
    is_home(server, item.number)
}

// "a node becoming inner is checked at home, locked at all": is an item locked that is checked there, or not?
pub fn is_locked(item: Item, checked: bool) -> bool
    ensures { result ≡ (checked || (item.written && item.becomes)) }
{
    if checked {
        return true;
    }
    if item.written {
        return item.becomes;
    }
    false
}

pub fn is_locked_at(item: Item, lowest: u64, server: u64) -> bool
    ensures { result ≡ locked_at lowest server (as_item item) }
{
    is_locked(item, is_checked_at(item, lowest, server))
}
