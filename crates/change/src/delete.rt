// Delete: the key goes from the leaf for it; one that is not there changes nothing.
ghost use Rattle.std.specs.Prelude.{◌≡◌, ◌<◌, ◌≤◌};
ghost use Rattle.nodes.specs.Change.{take_out};
ghost use Rattle.operations.specs.Change.{delete_plan};
ghost use Rattle.walk.specs.Ask.{Walking};
ghost use Rattle.change.specs.Rise.{widened};
ghost use Rattle.change.specs.Leaf.{Makes};
ghost use Rattle.client.specs.Bounds.{most_keys};

use crate::leaf::Changed;
use crate::rise::widen;
use nodes::change::Wide;
use nodes::node::Node;
use nodes::standing::place_at;
use nodes::stored::read_node;
use walk::down::descend;
use walk::walk::Stop;

// The leaf's content without key number i.
fn without(n: Node, i: usize) -> Wide
    requires { (n.count ≤ most_keys) × (i < n.count) }
    ensures { result ≡ widened (take_out n i) }
{
    widen(n.take_out(i))
}

pub fn delete(
    part: &[u8],
    slots: usize,
    used: &mut [u64],
    key: u64,
) -> Result<Option<Changed>, Stop>
    requires { Walking part.now used.old }
    ensures { Makes slots part used (delete_plan slots key) result }
{
    let way = descend(part, slots, used, key)?;
    let at = place_at(part, way.place, key);
    if !at.there {
        return Ok(None);
    }
    let leaf = read_node(part, way.place);
    Ok(Some(Changed {
        way,
        content: without(leaf, at.place - 1),
        a: 1,
    }))
}
