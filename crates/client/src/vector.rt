// A server's vector as a client sees it: its copy, with the transaction's frees and takes.
ghost use Rattle.std.specs.Prelude.{◌≡◌, ◌<◌};
ghost use Rattle.client.specs.Sets.{held};
ghost use Rattle.client.specs.Vectors.{has_vector, vector_copy, counted_one, seen_words, flag_fits, flags_fit, vector_fits, is_fetched};
ghost use Rattle.client.specs.Layout.{ClientPart, limit};
ghost use Rattle.client.specs.Bounds.{most_servers};
ghost use Rattle.client.specs.declared.part.Set.TheVariants.{Writes};

use crate::part::{
    FETCHED_VECTORS, Set, count, get_field, item_word, number_at, vector_at, vector_word,
};
use memory::bits::has;
use memory::read_words;
use nodes::object::Object;
use nodes::vector::with_taken;

// Is there a copy?
pub fn has_vector(part: &[u8], s: usize) -> bool
    requires { (s < most_servers) × ClientPart part.now }
    ensures { result ≡ has_vector (held part.now) s }
{
    vector_word(part, s, 0) == 1
}

pub fn vector_copy(part: &[u8], s: usize) -> [u64; 16]
    requires { (s < most_servers) × ClientPart part.now }
    ensures { result ≡ vector_copy (held part.now) s }
{
    let mut words = [0u64; 16];
    read_words(part, vector_at(s) + 1, &mut words);
    words
}

// The vector with write item i counted.
fn counted_one(part: &[u8], s: usize, i: usize, words: [u64; 16]) -> [u64; 16]
    requires { (i < limit Writes) × ClientPart part.now }
    ensures { result ≡ counted_one (held part.now) s i words }
{
    let Object::Flag(flag) = Object::from(number_at(part, Set::Writes, i)) else {
        return words;
    };
    if flag.server() as usize != s {
        return words;
    }
    let taken = item_word(part, Set::Writes, i, 19) == 1;
    with_taken(words, flag.slot() as usize, taken)
}

// The vector with the transaction's frees and takes.
pub fn seen_words(part: &[u8], s: usize) -> [u64; 16]
    requires { (s < most_servers) × ClientPart part.now }
    ensures { result ≡ seen_words (held part.now) s }
{
    let mut words = vector_copy(part, s);
    for i in 0..count(part, Set::Writes) {
        // by way of `next`: the checker takes no call's array straight into a variable that changes
        let next = counted_one(part, s, i, words);
        words = next;
    }
    words
}

// Refusal 10 for what is counted: write item i is no flag of the server, or 0 or 1.
fn flag_fits(part: &[u8], s: usize, i: usize) -> bool
    requires { (i < limit Writes) × ClientPart part.now }
    ensures { result ≡ flag_fits (held part.now) s i }
{
    match Object::from(number_at(part, Set::Writes, i)) {
        Object::Flag(flag) => {
            flag.server() as usize != s || item_word(part, Set::Writes, i, 19) <= 1
        }
        _ => true,
    }
}

// All write items.
fn flags_fit(part: &[u8], s: usize) -> bool
    requires { ClientPart part.now }
    ensures { result ≡ flags_fit (held part.now) s }
{
    for i in 0..count(part, Set::Writes) {
        if !flag_fits(part, s, i) {
            return false;
        }
    }
    true
}

// Are the copy of the vector and the flags written there in range?
pub fn vector_fits(part: &[u8], s: usize) -> bool
    requires { (s < most_servers) × ClientPart part.now }
    ensures { result ≡ vector_fits (held part.now) s }
{
    vector_word(part, s, 0) <= 1 && flags_fit(part, s)
}

// Has this transaction fetched it?
pub fn is_fetched(part: &[u8], s: usize) -> bool
    requires { (s < most_servers) × ClientPart part.now }
    ensures { result ≡ is_fetched (held part.now) s }
{
    has(get_field(part, FETCHED_VECTORS), s as u32)
}
