// Pairs found in leaves: a lent list has their number, then the key and the value of each.
ghost use Rattle.std.specs.Prelude.{◌≡◌, ◌+◌, ◌*◌, ◌<◌, ◌≤◌, length, get_or};
ghost use Rattle.memory.specs.Word.{view};
ghost use Rattle.nodes.specs.Node.{keys_of};
ghost use Rattle.nodes.specs.Stored.{node_at};
ghost use Rattle.operations.specs.Entry.{under};
ghost use Rattle.client.specs.Layout.{ClientPart};
ghost use Rattle.client.specs.Bounds.{most_keys, most_listed};
ghost use Rattle.walk.specs.Ask.{InPart, lent_node};
ghost use Rattle.walk.specs.Found.{pushed_pair, Roomy, to_right, start_in, many_from, index_from, with_one, LeafAt, gathered, lent_pairs, left_pairs};

use nodes::standing::{count_at, key_at, place_at, slot_at};

// The pairs that are sought: those strictly above a key, strictly below it, or not below it.
#[derive(Clone, Copy)]
pub enum Sought {
    Higher,
    Lower,
    AtLeast,
}

// Which pairs are sought from which key on, and how many.
#[derive(Clone, Copy)]
pub struct Wish {
    pub sought: Sought,
    pub wanted: usize,
    pub key: u64,
}

// The side on which they lie: is it the right one?
pub fn to_right(sought: Sought) -> bool
    ensures { result ≡ to_right sought }
{
    match sought {
        Sought::Higher => true,
        Sought::Lower => false,
        Sought::AtLeast => true,
    }
}

// The number of keys below a key, in the leaf at a place.
fn under_at(part: &[u8], leaf: usize, key: u64) -> usize
    requires { ((node_at (view part.now) leaf).count ≤ most_keys) × InPart leaf × ClientPart part.now }
    ensures value { result ≡ under (keys_of (node_at (view part.now) leaf)) key }
    ensures within { result ≤ (node_at (view part.now) leaf).count }
{
    if key == 0 {
        return 0;
    }
    place_at(part, leaf, key - 1).place
}

// The number of keys before those on the right, where a search begins.
fn start_at(part: &[u8], leaf: usize, sought: Sought, key: u64) -> usize
    requires { ((node_at (view part.now) leaf).count ≤ most_keys) × InPart leaf × ClientPart part.now }
    ensures value { result ≡ start_in sought (keys_of (node_at (view part.now) leaf)) key }
    ensures within { result ≤ (node_at (view part.now) leaf).count }
{
    match sought {
        Sought::Higher => place_at(part, leaf, key).place,
        Sought::Lower => under_at(part, leaf, key),
        Sought::AtLeast => under_at(part, leaf, key),
    }
}

// How many of a leaf's pairs are sought, from that start.
fn many_from(sought: Sought, start: usize, count: usize) -> usize
    requires { start ≤ count }
    ensures { result ≡ many_from sought start count }
{
    match sought {
        Sought::Higher => count - start,
        Sought::Lower => start,
        Sought::AtLeast => count - start,
    }
}

// The index of the one after j others.
fn index_from(sought: Sought, start: usize, count: usize, j: usize) -> usize
    requires { (start ≤ count) × (count ≤ most_keys) × (j < many_from sought start count) }
    ensures value { result ≡ index_from sought start j }
    ensures within { result < count }
{
    match sought {
        Sought::Higher => start + j,
        Sought::Lower => start - 1 - j,
        Sought::AtLeast => start + j,
    }
}

// One pair more.
fn push(found: &mut [u64], key: u64, value: u64)
    requires { (get_or found.old 0 0 < most_listed) × (2 * get_or found.old 0 0 + 2 < length found.old) }
    ensures { found.new ≡ pushed_pair found.old key value }
{
    let n = found[0] as usize;
    found[2 * n + 1] = key;
    found[2 * n + 2] = value;
    found[0] = n as u64 + 1;
}

// The pair of a leaf after j others that are sought.
fn take_one(
    part: &[u8],
    leaf: usize,
    sought: Sought,
    start: usize,
    count: usize,
    j: usize,
    found: &mut [u64],
)
    requires start_le_count { (start ≤ count) × (count ≤ most_keys) × (j < many_from sought start count) × InPart leaf × ClientPart part.now }
    requires room { (get_or found.old 0 0 < most_listed) × (2 * get_or found.old 0 0 + 2 < length found.old) }
    ensures { found.new ≡ with_one (node_at (view part.now) leaf) sought start j found.old }
{
    let i = index_from(sought, start, count, j);
    let key = key_at(part, leaf, i);
    let value = slot_at(part, leaf, i);
    push(found, key, value);
}

// The pairs of a leaf that are sought, until all that are wanted are found.
pub fn gather(part: &[u8], leaf: usize, w: Wish, found: &mut [u64])
    requires { LeafAt (node_at (view part.now) leaf) × InPart leaf × ClientPart part.now × Roomy w.wanted found.old }
    ensures found_value { left_pairs found ≡ gathered w (lent_node part leaf) (lent_pairs found) }
    ensures room { Roomy w.wanted found.new }
{
    let sought = w.sought;
    let start = start_at(part, leaf, sought, w.key);
    let count = count_at(part, leaf);
    for j in 0..many_from(sought, start, count) {
        if found[0] as usize == w.wanted {
            return;
        }
        take_one(part, leaf, sought, start, count, j, found);
    }
}
