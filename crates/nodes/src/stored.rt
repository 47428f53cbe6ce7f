// A node as 33 words, in lent memory; and which stored nodes have a field out of range.
ghost use Rattle.std.specs.Prelude.{◌≡◌, ◌+◌, ◌/◌, ◌≤◌, length};
ghost use Rattle.memory.specs.Word.{view};
ghost use Rattle.nodes.specs.Stored.{node_of, node_at, words_of, put_node};
ghost use Rattle.nodes.specs.Range.{node_in_range, fields_in_range};
ghost use Rattle.nodes.specs.Bounds.{node_words};

use crate::arrays::{blit, section};
use crate::node::Node;

impl Node {
    pub fn from_words(words: [u64; 33]) -> Node
        ensures { result ≡ node_of words }
    {
        Node {
            kind: words[0],
            level: words[1],
            version: words[2],
            count: words[3] as usize,
            keys: section(&words, 4, 14),
            slots: section(&words, 18, 15),
        }
    }

    pub fn to_words(self) -> [u64; 33]
        ensures { result ≡ words_of self }
    {
        let mut out = [0u64; 33];
        out[0] = self.kind;
        out[1] = self.level;
        out[2] = self.version;
        out[3] = self.count as u64;
        blit(&mut out, 4, &self.keys, 0, 14);
        blit(&mut out, 18, &self.slots, 0, 15);
        out
    }

    // whether every field is in its range
    pub fn in_range(self) -> bool
        ensures { result ≡ node_in_range self }
    {
        fields_in_range(self.kind, self.level, self.version, self.count)
    }
}

// the same of a node's fields before its keys
pub fn fields_in_range(kind: u64, level: u64, version: u64, count: usize) -> bool
    ensures { result ≡ fields_in_range kind level version count }
{
    if version > 4294967295 {
        return false;
    }
    match kind {
        0 => level == 0 && count == 0,
        1 => level == 0 && count <= 14,
        2 => 1 <= level && level <= 4 && count <= 14,
        3..=u64::MAX => false,
    }
}

// the node at word b
pub fn read_node(s: &[u8], b: usize) -> Node
    requires { b + node_words ≤ length s.now / 8 }
    ensures { result ≡ node_at (view s.now) b }
{
    let mut words = [0u64; 33];
    memory::read_words(s, b, &mut words);
    Node::from_words(words)
}

// the node at word b becomes n
pub fn write_node(s: &mut [u8], b: usize, n: Node)
    requires { b + node_words ≤ length s.old / 8 }
    ensures { view s.new ≡ put_node (view s.old) b n }
{
    memory::write_words(s, b, &n.to_words());
}
