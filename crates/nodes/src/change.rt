// Nodes changed: a key and a slot put in, taken out or replaced; split, merged, and one key moved over to a neighbour.
ghost use Rattle.std.specs.Prelude.{◌≡◌, ◌+◌, ◌-◌, ◌≤◌, ◌<◌, length};
ghost use Rattle.nodes.specs.Lists.{pad};
ghost use Rattle.nodes.specs.Node.{extra};
ghost use Rattle.nodes.specs.Change.{put_in, without, take_out, with_key, with_slot, with_version, part, narrow, cut_at, Cuttable, split, joined_keys, join, merged, from_right, from_left, JoinedCount};
ghost use Rattle.nodes.specs.Bounds.{keys_to_split, most_keys, wide_room};

use crate::arrays::{inserted, joined, removed, section};
use crate::node::{Node, slots_beyond};

// A node with room for two neighbours and their separator. A type of its own: what may be overfull is never stored.
#[derive(Clone, Copy)]
pub struct Wide {
    pub kind: u64,
    pub level: u64,
    pub version: u64,
    pub count: usize,
    pub keys: [u64; 32],
    pub slots: [u64; 32],
}

// Two neighbours and the separator between them.
#[derive(Clone, Copy)]
pub struct Halves {
    pub left: Node,
    pub right: Node,
    pub sep: u64,
}

impl Node {
    // a key put in before key number `at`, with its slot: a leaf's value beside it, an inner node's child right of it
    pub fn put_in(self, at: usize, key: u64, slot: u64) -> Wide
        requires { (self.count ≤ most_keys) × (at ≤ self.count) }
        ensures value { result ≡ put_in self at key slot }
        ensures size { result.count ≡ self.count + 1 }
    {
        let n = self.count;
        let e = self.extra();
        Wide {
            kind: self.kind,
            level: self.level,
            version: self.version,
            count: n + 1,
            keys: inserted(&self.keys, n, at, key),
            slots: inserted(&self.slots, n + e, at + e, slot),
        }
    }

    // key number `at` taken out, with its slot
    fn without(self, at: usize) -> Wide
        requires { (self.count ≤ most_keys) × (at < self.count) }
        ensures value { result ≡ without self at }
        ensures size { result.count < self.count }
    {
        let n = self.count;
        let e = self.extra();
        Wide {
            kind: self.kind,
            level: self.level,
            version: self.version,
            count: n - 1,
            keys: removed(&self.keys, n, at),
            slots: removed(&self.slots, n + e, at + e),
        }
    }

    pub fn take_out(self, at: usize) -> Node
        requires { (self.count ≤ most_keys) × (at < self.count) }
        ensures value { result ≡ take_out self at }
        ensures size { result.count < self.count }
    {
        self.without(at).node()
    }

    // the same keys and slots with another version, and 0 behind them
    pub fn with_version(self, version: u64) -> Node
        requires { self.count ≤ most_keys }
        ensures value { result ≡ with_version self version }
        ensures size { (result.count ≡ self.count) × (extra self.kind ≤ 1) }
    {
        Node {
            version,
            keys: section(&self.keys, 0, self.count),
            slots: section(&self.slots, 0, self.count + self.extra()),
            ..self
        }
    }

    // key number i replaced
    pub fn with_key(self, i: usize, key: u64) -> Node
        requires { (self.count ≤ most_keys) × (i < self.count) }
        ensures value { result ≡ with_key self i key }
        ensures size { result.count ≡ self.count }
    {
        let mut n = self.with_version(self.version);
        n.keys[i] = key;
        n
    }

    // slot number i replaced: a leaf's value, an inner node's child
    pub fn with_slot(self, i: usize, slot: u64) -> Node
        requires { (self.count ≤ most_keys) × (i < self.count + extra self.kind) }
        ensures value { result ≡ with_slot self i slot }
        ensures size { result.count ≡ self.count }
    {
        let mut n = self.with_version(self.version);
        n.slots[i] = slot;
        n
    }

    // the keys of two neighbours, in inner nodes with the separator between them
    fn joined_keys(self, sep: u64, right: Node) -> [u64; 32]
        requires { (self.count ≤ most_keys) × (right.count ≤ most_keys) }
        ensures { result ≡ pad wide_room (joined_keys self sep right) }
    {
        let n = self.count;
        let e = self.extra();
        let front = joined(&self.keys, n, &[sep], 0, e);
        joined(&front, n + e, &right.keys, 0, right.count)
    }

    // two neighbours in one
    fn join(self, sep: u64, right: Node) -> Wide
        requires { (self.count ≤ most_keys) × (right.count ≤ most_keys) }
        ensures value { result ≡ join self sep right }
        ensures size { JoinedCount self right result }
    {
        let n = self.count;
        let m = right.count;
        let e = self.extra();
        Wide {
            kind: self.kind,
            level: self.level,
            version: self.version,
            count: n + e + m,
            keys: self.joined_keys(sep, right),
            slots: joined(&self.slots, n + e, &right.slots, 0, m + right.extra()),
        }
    }

    // "from 7 the two merge into the left one"
    pub fn merge(self, sep: u64, right: Node) -> Node
        requires { (self.count ≤ most_keys) × (right.count ≤ most_keys)
            × (self.count + extra self.kind + right.count ≤ most_keys) }
        ensures value { result ≡ merged self sep right }
        ensures size { result.count ≡ self.count + extra self.kind + right.count }
    {
        self.join(sep, right).node()
    }

    // "From 8 or more keys one moves over, in inner nodes through the parent": from the right one
    pub fn from_right(self, sep: u64, right: Node) -> Halves
        requires { (self.count < most_keys) × (right.count ≤ most_keys) × (1 < right.count) }
        ensures value { result ≡ from_right self sep right }
        ensures sizes { (result.left.count ≤ most_keys) × (result.right.count ≤ most_keys) }
    {
        let i = self.count + 1;
        self.join(sep, right).cut(i, right.version)
    }

    // and from this one to the right one
    pub fn from_left(self, sep: u64, right: Node) -> Halves
        requires { (self.count ≤ most_keys) × (right.count < most_keys) × (1 < self.count) }
        ensures value { result ≡ from_left self sep right }
        ensures sizes { (result.left.count ≤ most_keys) × (result.right.count ≤ most_keys) }
    {
        let i = self.count - 1;
        self.join(sep, right).cut(i, right.version)
    }
}

impl Wide {
    // its slots beyond its keys
    fn extra(self) -> usize
        ensures value { result ≡ extra self.kind }
        ensures small { result ≤ 1 }
        ensures sizes { (length self.keys ≡ wide_room) × (length self.slots ≡ wide_room) }
    {
        slots_beyond(self.kind)
    }

    // so many keys from key number `from` on, with their slots
    fn part(self, from: usize, count: usize, version: u64) -> Node
        requires { (count ≤ most_keys) × (from + count ≤ wide_room - 1) }
        ensures value { result ≡ part self from count version }
        ensures size { result.count ≡ count }
    {
        Node {
            kind: self.kind,
            level: self.level,
            version,
            count,
            keys: section(&self.keys, from, count),
            slots: section(&self.slots, from, count + self.extra()),
        }
    }

    // a node that is not overfull
    pub fn node(self) -> Node
        requires { self.count ≤ most_keys }
        ensures value { result ≡ narrow self }
        ensures size { result.count ≡ self.count }
    {
        self.part(0, self.count, self.version)
    }

    // cut before key number i, which is the separator; the right half gets a version of its own
    fn cut(self, i: usize, version: u64) -> Halves
        requires { Cuttable self i }
        ensures value { result ≡ cut_at self i version }
        ensures sizes { (result.left.count ≤ most_keys) × (result.right.count ≤ most_keys) }
    {
        let e = self.extra();
        let left = self.part(0, i, self.version);
        let right = self.part(i + e, self.count - i - e, version);
        Halves {
            left,
            right,
            sep: self.keys[i],
        }
    }

    // "A leaf of 15 pairs splits into 7 and 8, and the first key of the right one goes up.
    // An inner node of 15 keys splits into 7 and 7, the eighth going up."
    pub fn split(self, version: u64) -> Halves
        requires { self.count ≡ keys_to_split }
        ensures value { result ≡ split self version }
        ensures sizes { (result.left.count ≤ most_keys) × (result.right.count ≤ most_keys) }
    {
        self.cut(7, version)
    }
}
