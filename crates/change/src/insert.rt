// Insert: the pair comes into the leaf for the key.
ghost use Rattle.std.specs.Prelude.{◌≡◌, ◌≤◌};
ghost use Rattle.nodes.specs.Place.{Within};
ghost use Rattle.operations.specs.Change.{insert_plan};
ghost use Rattle.walk.specs.Ask.{Walking};
ghost use Rattle.change.specs.Insert.{paired_at};
ghost use Rattle.change.specs.Leaf.{Makes};
ghost use Rattle.client.specs.Bounds.{most_keys};

use crate::leaf::Changed;
use crate::rise::widen;
use nodes::change::Wide;
use nodes::node::Node;
use nodes::standing::{KeyPlace, place_at};
use nodes::stored::read_node;
use walk::down::descend;
use walk::walk::Stop;

// A leaf's new content, with the answer a: 1 if the key is new.
#[derive(Clone, Copy)]
pub struct Paired {
    pub content: Wide,
    pub a: u64,
}

// "Insert of a present key replaces its value"
fn with_pair(n: Node, at: KeyPlace, key: u64, value: u64) -> Paired
    requires { (n.count ≤ most_keys) × Within at n.count }
    ensures { result ≡ paired_at n key value at }
{
    if at.there {
        let m = n.with_slot(at.place - 1, value);
        return Paired {
            content: widen(m),
            a: 0,
        };
    }
    Paired {
        content: n.put_in(at.place, key, value),
        a: 1,
    }
}

// The pair in the leaf for the key: that always changes.
pub fn insert(
    part: &[u8],
    slots: usize,
    used: &mut [u64],
    key: u64,
    value: u64,
) -> Result<Option<Changed>, Stop>
    requires { Walking part.now used.old }
    ensures { Makes slots part used (insert_plan slots key value) result }
{
    let way = descend(part, slots, used, key)?;
    let at = place_at(part, way.place, key);
    let p = with_pair(read_node(part, way.place), at, key, value);
    Ok(Some(Changed {
        way,
        content: p.content,
        a: p.a,
    }))
}
