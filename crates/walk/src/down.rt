// The way down from the root: what every operation reads first, and the checks of what was read. Nodes are asked where they stand in the
// client's part.
ghost use Rattle.std.specs.Prelude.{◌≡◌, ◌≤◌, IfOk};
ghost use Rattle.memory.specs.Word.{view};
ghost use Rattle.nodes.specs.Stored.{node_at};
ghost use Rattle.client.specs.Layout.{ClientPart};
ghost use Rattle.client.specs.Bounds.{highest_level};
ghost use Rattle.walk.specs.Entries.{opens_with, opens, below_with, below};
ghost use Rattle.walk.specs.Walk.{course};
ghost use Rattle.walk.specs.Ask.{InPart, placed_in, node_in, Walking, WalkingOwn, over_own, unwritten, over_read, lent_node};
ghost use Rattle.walk.specs.Down.{Kid, RootMet, turn_in, turns_in, PathInPart, Above, From, Led, AtRoot, Descends, Reaching, ToLeaf, root_name_in, root_node_in, arrived, Lowers, LowerInPart};

use crate::walk::{Stop, ask_meta, ask_node, see_node};
use nodes::node::Node;
use nodes::standing::{count_at, kind_at, level_at, place_at, slot_at};
use nodes::stored::read_node;

// Is a node of that kind and level a leaf or an inner node?
fn opens(kind: u64, level: u64) -> bool
    ensures { result ≡ opens_with kind level }
{
    if kind == 1 {
        return level == 0;
    }
    if kind == 2 {
        return 0 < level;
    }
    false
}

// May a node of that kind, level and count be used below the root, at the level `wanted`?
fn below(kind: u64, level: u64, count: usize, wanted: u64) -> bool
    ensures { result ≡ below_with wanted kind level count }
{
    if !opens(kind, level) {
        return false;
    }
    if level != wanted {
        return false;
    }
    7 <= count
}

// The same of a node at a place.
fn opens_at(part: &[u8], place: usize) -> bool
    requires { InPart place × ClientPart part.now }
    ensures { result ≡ opens (node_at (view part.now) place) }
{
    let kind = kind_at(part, place);
    let level = level_at(part, place);
    opens(kind, level)
}

fn below_at(part: &[u8], place: usize, wanted: u64) -> bool
    requires { InPart place × ClientPart part.now }
    ensures { result ≡ below wanted (node_at (view part.now) place) }
{
    let kind = kind_at(part, place);
    let level = level_at(part, place);
    let count = count_at(part, place);
    below(kind, level, count, wanted)
}

// And of a node by value.
fn below_node(n: Node, wanted: u64) -> bool
    ensures { result ≡ below wanted n }
{
    below(n.kind, n.level, n.count, wanted)
}

// A node below the root: where it stands.
pub fn child(
    part: &[u8],
    slots: usize,
    used: &mut [u64],
    level: u64,
    name: u64,
) -> Result<usize, Stop>
    requires { Walking part.now used.old }
    ensures unwritten { unwritten Kid slots part used level name (course result) (placed_in part.now result) used.new }
    ensures within { IfOk result InPart }
{
    let place = ask_node(part, slots, used, name)?;
    if !below_at(part, place, level) {
        return Err(Stop::Aborts(3));
    }
    Ok(place)
}

// The same, where the operation may have written it: the node itself.
pub fn see_child(
    part: &[u8],
    slots: usize,
    own: &[u64],
    used: &mut [u64],
    level: u64,
    name: u64,
) -> Result<Node, Stop>
    requires { WalkingOwn part.now own.now used.old }
    ensures { over_own Kid slots part own used level name (course result) (node_in result) used.new }
{
    let node = see_node(part, slots, own, used, name)?;
    if !below_node(node, level) {
        return Err(Stop::Aborts(3));
    }
    Ok(node)
}

// Where the root stands, by its name.
pub fn root(part: &[u8], slots: usize, used: &mut [u64], name: u64) -> Result<usize, Stop>
    requires { Walking part.now used.old }
    ensures over_read { over_read RootMet slots part used name (course result) (placed_in part.now result) used.new }
    ensures within { IfOk result InPart }
{
    let place = ask_node(part, slots, used, name)?;
    if !opens_at(part, place) {
        return Err(Stop::Aborts(3));
    }
    Ok(place)
}

// An inner node on the path, with the number of the child that was followed.
#[derive(Clone, Copy)]
pub struct Turn {
    pub name: u64,
    pub at: usize,
    pub node: Node,
}

// The same, where the node stands in the part.
#[derive(Clone, Copy)]
pub struct Pass {
    pub name: u64,
    pub at: usize,
    pub place: usize,
}

// Where the node of the level that was looked for stands, its name, and the inner nodes above it by their levels, up to the root's.
#[derive(Clone, Copy)]
pub struct Descent {
    pub top: usize,
    pub path: [Pass; 5],
    pub name: u64,
    pub place: usize,
}

// A step down: the number of the child that was followed, its name and where it stands.
#[derive(Clone, Copy)]
struct Lower {
    at: usize,
    name: u64,
    place: usize,
}

// From an inner node of a level to its child for a key.
fn go_lower(
    part: &[u8],
    slots: usize,
    used: &mut [u64],
    key: u64,
    level: usize,
    place: usize,
) -> Result<Lower, Stop>
    requires walking { Walking part.now used.old }
    requires from { Above (node_at (view part.now) place) level × InPart place }
    ensures lowers { Lowers slots part used key level place result used.new }
    ensures within { LowerInPart result }
{
    let at = place_at(part, place, key).place;
    let name = slot_at(part, place, at);
    let below = child(part, slots, used, (level - 1) as u64, name)?;
    Ok(Lower {
        at,
        name,
        place: below,
    })
}

// From the root, which stands at a place, down to a level, by a key.
pub fn go_down(
    part: &[u8],
    slots: usize,
    used: &mut [u64],
    key: u64,
    target: usize,
    root: u64,
    first: usize,
) -> Result<Descent, Stop>
    requires walking { Walking part.now used.old }
    requires from { From (node_at (view part.now) first) target × InPart first }
    ensures over_read { over_read Led slots part used key target root (lent_node part first) (arrived part result) used.new }
    ensures within { IfOk result (λ d. PathInPart d.path × InPart d.place) }
{
    let top = level_at(part, first) as usize;
    let blank = Pass {
        name: 0,
        at: 0,
        place: 0,
    };
    let mut path = [blank; 5];
    let mut name = root;
    let mut place = first;
    for below in (target..top).rev() {
        let l = go_lower(part, slots, used, key, below + 1, place)?;
        path[below + 1] = Pass {
            name,
            at: l.at,
            place,
        };
        name = l.name;
        place = l.place;
    }
    Ok(Descent {
        top,
        path,
        name,
        place,
    })
}

// The root's name, and where it stands.
#[derive(Clone, Copy)]
pub struct Rooted {
    pub name: u64,
    pub place: usize,
}

// The metadata, and the root that it names.
pub fn at_root(part: &[u8], slots: usize, used: &mut [u64]) -> Result<Rooted, Stop>
    requires { Walking part.now used.old }
    ensures over_read { over_read AtRoot slots part used (course result) (root_name_in result) (root_node_in part.now result) used.new }
    ensures within { IfOk result (λ r. InPart r.place) }
{
    let name = ask_meta(part, slots, used)?.root;
    let place = root(part, slots, used, name)?;
    Ok(Rooted { name, place })
}

// From the metadata down to the leaf for a key.
pub fn descend(part: &[u8], slots: usize, used: &mut [u64], key: u64) -> Result<Descent, Stop>
    requires { Walking part.now used.old }
    ensures over_read { over_read Descends slots part used key (arrived part result) used.new }
    ensures within { IfOk result (λ d. PathInPart d.path × InPart d.place) }
{
    let r = at_root(part, slots, used)?;
    go_down(part, slots, used, key, 0, r.name, r.place)
}

// From the root, which stands at a place, down to the leaf for a key: where that stands. No path is kept.
fn reach(part: &[u8], slots: usize, used: &mut [u64], key: u64, first: usize) -> Result<usize, Stop>
    requires walking { Walking part.now used.old }
    requires from { From (node_at (view part.now) first) 0 × InPart first }
    ensures reaching { Reaching slots part used key first result }
    ensures within { IfOk result InPart }
{
    let mut place = first;
    for below in (0..level_at(part, first) as usize).rev() {
        place = go_lower(part, slots, used, key, below + 1, place)?.place;
    }
    Ok(place)
}

// From the metadata down to the leaf for a key, by an operation that goes nowhere from there: where it stands.
pub fn to_leaf(part: &[u8], slots: usize, used: &mut [u64], key: u64) -> Result<usize, Stop>
    requires { Walking part.now used.old }
    ensures over_read { over_read ToLeaf slots part used key (course result) (placed_in part.now result) used.new }
    ensures within { IfOk result InPart }
{
    let r = at_root(part, slots, used)?;
    reach(part, slots, used, key, r.place)
}

// An inner node of the path, taken out of the part.
fn turn_at(part: &[u8], p: Pass) -> Turn
    requires { InPart p.place × ClientPart part.now }
    ensures { result ≡ turn_in part.now p }
{
    let node = read_node(part, p.place);
    Turn {
        name: p.name,
        at: p.at,
        node,
    }
}

// All of them.
pub fn turns(part: &[u8], path: [Pass; 5]) -> [Turn; 5]
    requires { PathInPart path × ClientPart part.now }
    ensures { result ≡ turns_in part.now path }
{
    let blank = Turn {
        name: 0,
        at: 0,
        node: Node::free(0),
    };
    let mut out = [blank; 5];
    for i in 0..5 {
        let turn = turn_at(part, path[i]);
        out[i] = turn;
    }
    out
}
