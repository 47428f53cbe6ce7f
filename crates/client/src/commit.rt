// Who takes part in a commit.
ghost use Rattle.std.specs.Prelude.{◌≡◌, ◌+◌, ◌<◌};
ghost use Rattle.nodes.specs.Name.{server_of};
ghost use Rattle.client.specs.Record.{by_number};
ghost use Rattle.client.specs.Layout.{limit, ClientPart};
ghost use Rattle.client.specs.declared.part.Set.TheVariants.{Reads, Writes};
ghost use Rattle.client.specs.Sets.{held, count};
ghost use Rattle.client.specs.Commit.{inner_at};
ghost use Rattle.client.specs.Participants.{calls_all, called_homes, all_take_part, states_read, participants_of};

use crate::items::{inner_before_after, is_inner};
use crate::part::{Set, count, find, item_word, number_at, record_at};
use memory::bits::with;
use nodes::name::Name;
use nodes::object::Object;
use nodes::states::present;

// Is item i of a set an inner node?
pub fn inner_at(part: &[u8], set: Set, i: usize) -> bool
    requires { (i < limit set) × ClientPart part.now }
    ensures { result ≡ inner_at (held part.now) set i }
{
    match Object::from(number_at(part, set, i)) {
        Object::Node(_) => item_word(part, set, i, 1) == 2,
        _ => false,
    }
}

// Does write item i make all servers take part?
fn calls_all(part: &[u8], i: usize) -> bool
    requires { (i < limit Writes) × ClientPart part.now }
    ensures { result ≡ calls_all (held part.now) i }
{
    inner_before_after(part, number_at(part, Set::Writes, i))
}

// Does one of the write items?
pub fn all_take_part(part: &[u8]) -> bool
    requires { ClientPart part.now }
    ensures { result ≡ all_take_part (held part.now) }
{
    for i in 0..count(part, Set::Writes) {
        if calls_all(part, i) {
            return true;
        }
    }
    false
}

// The home of the object with that number; the metadata has none of its own.
fn home_of(number: u64) -> u64
    ensures { result ≡ by_number number 0 server_of server_of }
{
    match Object::from(number) {
        Object::Metadata => 0,
        Object::Node(name) | Object::Flag(name) => name.server(),
    }
}

// The homes that read items call, with that of item i.
fn with_home(part: &[u8], i: usize, set: u64) -> u64
    requires { (i < limit Reads) × (set ≡ called_homes (held part.now) i) × ClientPart part.now }
    ensures { result ≡ called_homes (held part.now) (i + 1) }
{
    let number = number_at(part, Set::Reads, i);
    if is_inner(number, record_at(part, Set::Reads, i)) {
        return set;
    }
    let home = home_of(number);
    if home < Name::SERVERS {
        return with(set, home as u32);
    }
    set
}

// Those of all read items, in one pass: not one for each server.
fn homes(part: &[u8]) -> u64
    requires { ClientPart part.now }
    ensures { result ≡ called_homes (held part.now) (count (held part.now) Reads) }
{
    let mut set: u64 = 0;
    for i in 0..count(part, Set::Reads) {
        set = with_home(part, i, set);
    }
    set
}

// The servers' states in the metadata read.
pub fn states_read(part: &[u8]) -> u64
    requires { ClientPart part.now }
    ensures { result ≡ states_read (held part.now) }
{
    match find(part, Set::Reads, 0) {
        Some(i) => record_at(part, Set::Reads, i).slots[1],
        None => 0,
    }
}

// The set of the servers that take part.
pub fn participants(part: &[u8]) -> u64
    requires { ClientPart part.now }
    ensures { result ≡ participants_of (held part.now) }
{
    if all_take_part(part) {
        return present(states_read(part));
    }
    homes(part)
}
