// A node where it stands in lent memory, at word b: its words are read one by one, and nothing is copied.
ghost use Rattle.std.specs.Prelude.{◌≡◌, ◌+◌, ◌/◌, ◌<◌, ◌≤◌, length, get_or};
ghost use Rattle.base.specs.Test.{one_if};
ghost use Rattle.memory.specs.Word.{view};
ghost use Rattle.nodes.specs.Stored.{node_at};
ghost use Rattle.nodes.specs.Place.{place, key_place, Within};
ghost use Rattle.nodes.specs.Counting.{from_count};
ghost use Rattle.nodes.specs.Node.{keys_of};
ghost use Rattle.nodes.specs.Range.{node_in_range};
ghost use Rattle.nodes.specs.Bounds.{most_children, most_keys, node_words};

use crate::stored::fields_in_range;
use memory::read_word;

pub fn kind_at(s: &[u8], b: usize) -> u64
    requires { b + node_words ≤ length s.now / 8 }
    ensures { result ≡ (node_at (view s.now) b).kind }
{
    read_word(s, b)
}

pub fn level_at(s: &[u8], b: usize) -> u64
    requires { b + node_words ≤ length s.now / 8 }
    ensures { result ≡ (node_at (view s.now) b).level }
{
    read_word(s, b + 1)
}

pub fn version_at(s: &[u8], b: usize) -> u64
    requires { b + node_words ≤ length s.now / 8 }
    ensures { result ≡ (node_at (view s.now) b).version }
{
    read_word(s, b + 2)
}

pub fn count_at(s: &[u8], b: usize) -> usize
    requires { b + node_words ≤ length s.now / 8 }
    ensures { result ≡ (node_at (view s.now) b).count }
{
    read_word(s, b + 3) as usize
}

pub fn key_at(s: &[u8], b: usize, i: usize) -> u64
    requires { (i < most_keys) × (b + node_words ≤ length s.now / 8) }
    ensures { result ≡ get_or (node_at (view s.now) b).keys i 0 }
{
    read_word(s, b + 4 + i)
}

pub fn slot_at(s: &[u8], b: usize, i: usize) -> u64
    requires { (i < most_children) × (b + node_words ≤ length s.now / 8) }
    ensures { result ≡ get_or (node_at (view s.now) b).slots i 0 }
{
    read_word(s, b + 18 + i)
}

// whether every field is in its range
pub fn in_range_at(s: &[u8], b: usize) -> bool
    requires { b + node_words ≤ length s.now / 8 }
    ensures { result ≡ node_in_range (node_at (view s.now) b) }
{
    fields_in_range(
        kind_at(s, b),
        level_at(s, b),
        version_at(s, b),
        count_at(s, b),
    )
}

// The place of a key, and whether the key is there. No Option: where it isn't there the place is wanted too, as the one where it would go.
#[derive(Clone, Copy)]
pub struct KeyPlace {
    pub place: usize,
    pub there: bool,
}

// a test as a number, so that what it says is added and not branched on
pub fn one_if(test: bool) -> usize
    ensures value { result ≡ one_if test }
    ensures small { result ≤ 1 }
{
    test as usize
}

// The key at a position: "Key positions count from 1". Before the first stands the count.
fn key_number(s: &[u8], b: usize, i: usize) -> u64
    requires { (i ≤ most_keys) × (b + node_words ≤ length s.now / 8) }
    ensures { result ≡ get_or (from_count (node_at (view s.now) b)) i 0 }
{
    read_word(s, b + 3 + i)
}

// the number of keys that are not above the key: "worked out by adding a 0 or 1 for each key"
fn not_above(s: &[u8], b: usize, key: u64) -> usize
    requires { ((node_at (view s.now) b).count ≤ most_keys) × (b + node_words ≤ length s.now / 8) }
    ensures value { result ≡ place (keys_of (node_at (view s.now) b)) key }
    ensures within { result ≤ (node_at (view s.now) b).count }
{
    let mut p: usize = 0;
    for i in 1..count_at(s, b) + 1 {
        p += one_if(key_number(s, b, i) <= key);
    }
    p
}

// "The place in a node comes with a yes or no". At place 0 the count is looked at all the same, and says nothing.
pub fn place_at(s: &[u8], b: usize, key: u64) -> KeyPlace
    requires { ((node_at (view s.now) b).count ≤ most_keys) × (b + node_words ≤ length s.now / 8) }
    ensures value { result ≡ key_place (keys_of (node_at (view s.now) b)) key }
    ensures counts { result.place ≡ place (keys_of (node_at (view s.now) b)) key }
    ensures within { Within result (node_at (view s.now) b).count }
{
    let place = not_above(s, b, key);
    let same = key_number(s, b, place) == key;
    KeyPlace {
        place,
        there: (0 < place) & same,
    }
}
