// A node by value, and what is asked of it.
ghost use Rattle.std.specs.Prelude.{◌≡◌, ◌≤◌, ◌<◌, length};
ghost use Rattle.nodes.specs.Node.{extra, keys_of, free_node, parent_of, pair_at};
ghost use Rattle.nodes.specs.Place.{rises};
ghost use Rattle.nodes.specs.Bounds.{most_children, most_keys};

// "A node has a kind (0 free, 1 leaf, 2 inner), a level, a 32-bit version, at most 14 keys in strictly rising order,
// and 14 values (leaf) or one child more than keys (inner)." The kind is a number and the lists have the count beside them, since any 33 words
// of the memory are a node (`node_of`); `node_in_range` says which are refused.
#[derive(Clone, Copy)]
pub struct Node {
    pub kind: u64,
    pub level: u64,
    pub version: u64,
    pub count: usize,
    pub keys: [u64; 14],
    pub slots: [u64; 15],
}

// 1 for the inner kind, which has one slot more than keys
pub fn slots_beyond(kind: u64) -> usize
    ensures value { result ≡ extra kind }
    ensures small { result ≤ 1 }
{
    if kind == 2 { 1 } else { 0 }
}

impl Node {
    // its slots beyond its keys
    pub fn extra(self) -> usize
        ensures value { result ≡ extra self.kind }
        ensures small { result ≤ 1 }
        ensures sizes { (length self.keys ≡ most_keys) × (length self.slots ≡ most_children) }
    {
        slots_beyond(self.kind)
    }

    // whether each key is above the one before
    pub fn keys_rise(self) -> bool
        requires { self.count ≤ most_keys }
        ensures { result ≡ rises (keys_of self) }
    {
        for i in 1..self.count {
            if self.keys[i] <= self.keys[i - 1] {
                return false;
            }
        }
        true
    }

    // "turns to its right neighbour under the same parent, or to the left one if it is the last child":
    // the left one of the two children, which has the number of the separator between them
    pub fn pair_at(self, child: usize) -> usize
        requires { (0 < self.count) × (child ≤ self.count) }
        ensures value { result ≡ pair_at self.count child }
        ensures within { result < self.count }
    {
        if child < self.count { child } else { child - 1 }
    }

    // "Freed nodes become kind 0 and keep only a version."
    pub fn free(version: u64) -> Node
        ensures { result ≡ free_node version }
    {
        Node {
            kind: 0,
            level: 0,
            version,
            count: 0,
            keys: [0; 14],
            slots: [0; 15],
        }
    }

    // the inner node over two children
    pub fn over(level: u64, version: u64, left: u64, sep: u64, right: u64) -> Node
        ensures { result ≡ parent_of level version left sep right }
    {
        let mut keys = [0u64; 14];
        let mut slots = [0u64; 15];
        keys[0] = sep;
        slots[0] = left;
        slots[1] = right;
        Node {
            kind: 2,
            level,
            version,
            count: 1,
            keys,
            slots,
        }
    }
}
