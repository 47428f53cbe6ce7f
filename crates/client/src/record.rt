// Items: an object's number and its record, 34 words.
ghost use Rattle.std.specs.Prelude.{◌≡◌, ◌∷◌, ◌+◌, ◌≤◌, length};
ghost use Rattle.nodes.specs.Stored.{node_at, words_of};
ghost use Rattle.client.specs.Layout.{record_words};

use crate::part::RECORD_WORDS;
use nodes::node::Node;

// The record in a list of words, from word at on.
pub fn record_in(list: &[u64], at: usize) -> Node
    requires { at + record_words ≤ length list.now }
    ensures { result ≡ node_at list.now at }
{
    let mut words = [0u64; 33];
    words.copy_from_slice(&list[at..at + RECORD_WORDS]);
    Node::from_words(words)
}

// The words of an item.
pub fn item_words(number: u64, n: Node) -> [u64; 34]
    ensures { result ≡ number ∷ words_of n }
{
    let mut item = [number; 34];
    item[1..].copy_from_slice(&n.to_words());
    item
}

// The words of a vector's copy: 1, then its sixteen words.
pub fn vector_words(words: [u64; 16]) -> [u64; 17]
    ensures { result ≡ 1 ∷ words }
{
    let mut copy = [1u64; 17];
    copy[1..].copy_from_slice(&words);
    copy
}
