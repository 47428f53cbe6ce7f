// The writes of the operation that is worked on, in a lent list: their count, then items of 34 words, an object's number and its
// record, each object once. They enter the write set only with the answer.
ghost use Rattle.std.specs.Prelude.{◌≡◌, ◌+◌, ◌<◌, ◌≤◌, length, get_or};
ghost use Rattle.nodes.specs.Found.{Inside};
ghost use Rattle.client.specs.Lent.{OwnFits, own_find, own_record, own_at, own_put};
ghost use Rattle.client.specs.Bounds.{own_most, own_room};
ghost use Rattle.client.specs.Record.{first_slot};

use crate::part::ITEM_WORDS;
use crate::record::{item_words, record_in};
use nodes::node::Node;

// The record of own write i.
pub fn own_record(own: &[u64], i: usize) -> Node
    requires { (i < own_most) × OwnFits own.now }
    ensures { result ≡ own_record own.now i }
{
    record_in(own, ITEM_WORDS * i + 2)
}

// Its value, if it is of the metadata or a flag.
pub fn own_value(own: &[u64], i: usize) -> u64
    requires { (i < own_most) × OwnFits own.now }
    ensures { result ≡ first_slot (own_record own.now i) }
{
    own[ITEM_WORDS * i + 20]
}

// The own write of the object with that number.
pub fn find_own(own: &[u64], number: u64) -> Option<usize>
    requires { OwnFits own.now }
    ensures value { result ≡ own_find own.now number }
    ensures within { Inside result own_most }
{
    for i in 0..own[0] as usize {
        if own[ITEM_WORDS * i + 1] == number {
            return Some(i);
        }
    }
    None
}

fn set_own(own: &mut [u64], i: usize, number: u64, n: Node)
    requires { (i < own_most) × (own_room ≤ length own.old) }
    ensures { own.new ≡ own_at own.old number n i }
{
    let at = ITEM_WORDS * i + 1;
    own[at..at + ITEM_WORDS].copy_from_slice(&item_words(number, n));
}

// An object is written: in its place, else behind the others.
pub fn put_own(own: &mut [u64], number: u64, n: Node)
    requires { OwnFits own.old × (get_or own.old 0 0 < own_most) }
    ensures own_after { own.new ≡ own_put own.old number n }
    ensures fits { OwnFits own.new }
{
    match find_own(own, number) {
        Some(i) => set_own(own, i, number, n),
        None => {
            let count = own[0];
            set_own(own, count as usize, number, n);
            own[0] = count + 1;
        }
    }
}
