// The place of a key in a node, for the benchmark: by counting, as the engine finds it, and by branching, as it did before, but that
// the loop goes by positions from 1 in both. They meet one contract, so that nothing but their code is compared.
#![tactic(auto)]

ghost use Rattle.std.specs.Prelude.{◌≡◌, ◌+◌, ◌/◌, ◌≤◌, length};
ghost use Rattle.memory.specs.Word.{view};
ghost use Rattle.nodes.specs.Bounds.{most_keys, node_words};
ghost use Rattle.nodes.specs.Node.{keys_of};
ghost use Rattle.nodes.specs.Place.{place, key_place, Within};
ghost use Rattle.nodes.specs.Stored.{node_at};
ghost use Rattle.places.specs.Asked.{asked, numbered};

use nodes::standing::{KeyPlace, count_at, key_at, one_if, place_at};

// The place of a key in a node lent as its bytes, by counting.
#[unsafe(no_mangle)]
pub extern "C" fn places_counted(node: &[u8; 264], key: u64) -> usize
    ensures { result ≡ asked (view node.now) key }
{
    if 14 < count_at(node, 0) {
        return 0;
    }
    let at = place_at(node, 0, key);
    numbered(at)
}

// The same by branching. The two differ in one call only; a function generic over it would state the search's contract once more, as a law of a trait.
#[unsafe(no_mangle)]
pub extern "C" fn places_branched(node: &[u8; 264], key: u64) -> usize
    ensures { result ≡ asked (view node.now) key }
{
    if 14 < count_at(node, 0) {
        return 0;
    }
    let at = branched_at(node, 0, key);
    numbered(at)
}

// A place and its yes or no as one number.
fn numbered(at: KeyPlace) -> usize
    requires { at.place ≤ most_keys }
    ensures { result ≡ numbered at }
{
    2 * at.place + one_if(at.there)
}

// the number of keys that are not above the key, with a branch on each
fn branched(s: &[u8], b: usize, key: u64) -> usize
    requires { ((node_at (view s.now) b).count ≤ most_keys) × (b + node_words ≤ length s.now / 8) }
    ensures value { result ≡ place (keys_of (node_at (view s.now) b)) key }
    ensures within { result ≤ (node_at (view s.now) b).count }
{
    let count = count_at(s, b);
    let mut p: usize = 0;
    for i in 1..count + 1 {
        if key_at(s, b, i - 1) <= key {
            p += 1;
        }
    }
    p
}

// the place with its yes or no, with a branch on whether there is one
fn branched_at(s: &[u8], b: usize, key: u64) -> KeyPlace
    requires { ((node_at (view s.now) b).count ≤ most_keys) × (b + node_words ≤ length s.now / 8) }
    ensures value { result ≡ key_place (keys_of (node_at (view s.now) b)) key }
    ensures within { Within result (node_at (view s.now) b).count }
{
    let place = branched(s, b, key);
    if place == 0 {
        return KeyPlace {
            place,
            there: false,
        };
    }
    KeyPlace {
        place,
        there: key_at(s, b, place - 1) == key,
    }
}
