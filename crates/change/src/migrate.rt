// Migrate: a node goes to a slot of a named server.
ghost use Rattle.std.specs.Prelude.{◌≡◌, true, ◌<◌, ◌≤◌, ◌-◌, None, Some, IfOk};
ghost use Rattle.memory.specs.Word.{view};
ghost use Rattle.nodes.specs.Kept.{Whole};
ghost use Rattle.nodes.specs.Stored.{node_at};
ghost use Rattle.operations.specs.Object.{node};
ghost use Rattle.operations.specs.Migrate.{move_root, move_if, migrate_plan};
ghost use Rattle.client.specs.Record.{in_store, value_of};
ghost use Rattle.client.specs.Lent.{own_count};
ghost use Rattle.client.specs.Bounds.{end_of_slots, most_servers, own_most, highest_level};
ghost use Rattle.walk.specs.Walk.{answer_course, course};
ghost use Rattle.walk.specs.Ask.{SmallNode, OwnGood, InPart, Writing, Beginning, Walking, over_lent, over_read};
ghost use Rattle.walk.specs.Down.{arrived};
ghost use Rattle.change.specs.Operated.{Operates};
ghost use Rattle.change.specs.Move.{Beside, Placed, Left, Moved};
ghost use Rattle.change.specs.Migrate.{named_plan, below_plan};
ghost use Rattle.change.specs.Parent.{Parent, ToParent, ChildMoved, MovesAt};

use crate::rise::write_node;
use client::own::put_own;
use client::range::metadata;
use nodes::name::Name;
use nodes::node::Node;
use nodes::standing::{level_at, place_at, slot_at};
use nodes::stored::read_node;
use walk::down::{Descent, go_down, root};
use walk::lookup::answers;
use walk::search::take_on;
use walk::take::{release, take_node};
use walk::walk::{Answer, Stop, ask_meta, ask_node};

// "changes .. the metadata for the root": the servers' states, which stay, come with the root only.
fn write_root(own: &mut [u64], states: Option<u64>, name: u64)
    requires { OwnGood own.old × (own_count own.old < own_most) }
    ensures { Beside own.old states name own.new }
{
    if let Some(states) = states {
        put_own(own, 0, metadata(0, name, states));
    }
}

// A slot of the server, above a slot number, with its node: its name.
fn take_place(
    part: &[u8],
    slots: usize,
    own: &mut [u64],
    used: &mut [u64],
    server: usize,
    slot: usize,
) -> Result<u64, Stop>
    requires writing { Writing part.now own.old used.old own_most }
    requires on { server < most_servers }
    requires above { slot < end_of_slots }
    ensures { over_lent Placed slots part own used server slot result own.new used.new }
{
    let name = take_on(part, slots, own, used, server, 1, slot)?;
    take_node(part, slots, own, used, name)?;
    Ok(name)
}

// The node goes to the slot of the name `to`, and its old slot is freed.
fn leave(
    part: &[u8],
    slots: usize,
    own: &mut [u64],
    used: &mut [u64],
    name: u64,
    to: u64,
    n: Node,
    states: Option<u64>,
) -> Result<(), Stop>
    requires writing { Writing part.now own.old used.old (own_most - 4) }
    requires there { in_store slots to ≡ true }
    requires small { SmallNode n }
    ensures { over_lent Left slots part own used name to n states (course result) own.new used.new }
{
    write_root(own, states, to);
    release(part, slots, own, used, name)?;
    write_node(own, to, n);
    Ok(())
}

// The node goes to a slot of the server: the new name.
fn move_to(
    part: &[u8],
    slots: usize,
    own: &mut [u64],
    used: &mut [u64],
    name: u64,
    server: u64,
    n: Node,
    states: Option<u64>,
) -> Result<u64, Stop>
    requires beginning { Beginning part.now own.old used.old }
    requires on { server < most_servers }
    requires small { SmallNode n }
    ensures { over_lent Moved slots part own used name server n states result own.new used.new }
{
    let from = Name { number: name };
    let slot = from.slot() as usize;
    let to = take_place(part, slots, own, used, server as usize, slot)?;
    leave(part, slots, own, used, name, to, n, states)?;
    Ok(to)
}

// The root: the metadata gets the new name.
fn move_root(
    part: &[u8],
    slots: usize,
    own: &mut [u64],
    used: &mut [u64],
    states: u64,
    name: u64,
    server: u64,
    n: Node,
) -> Result<Answer, Stop>
    requires beginning { Beginning part.now own.old used.old }
    requires on { server < most_servers }
    requires small { SmallNode n }
    ensures { Operates slots part own used (move_root slots states name server (value_of (node name) n)) (answer_course result) }
{
    let to = move_to(part, slots, own, used, name, server, n, Some(states))?;
    answers(part, used, Answer { a: 1, b: to })
}

// Child number `at` of the parent p: p gets the new name, under its own name `above`.
fn move_child(
    part: &[u8],
    slots: usize,
    own: &mut [u64],
    used: &mut [u64],
    name: u64,
    server: u64,
    n: Node,
    above: u64,
    p: Node,
    at: usize,
) -> Result<Answer, Stop>
    requires beginning { Beginning part.now own.old used.old }
    requires on { server < most_servers }
    requires small { SmallNode n }
    requires parent { Parent slots n.level above p }
    requires child { at ≤ p.count }
    ensures { over_lent ChildMoved slots part own used name server n above p at (answer_course result) own.new used.new }
{
    let to = move_to(part, slots, own, used, name, server, n, None)?;
    let parent = p.with_slot(at, to);
    write_node(own, above, parent);
    answers(part, used, Answer { a: 1, b: to })
}

// "isn't met at its level going down from the root by its first key"
fn move_at(
    part: &[u8],
    slots: usize,
    own: &mut [u64],
    used: &mut [u64],
    key: u64,
    name: u64,
    server: u64,
    n: Node,
    above: u64,
    place: usize,
) -> Result<Answer, Stop>
    requires beginning { Beginning part.now own.old used.old }
    requires on { server < most_servers }
    requires small { SmallNode n }
    requires parent { Parent slots n.level above (node_at (view part.now) place) × InPart place }
    ensures { MovesAt slots part own used key name server n above place (answer_course result) }
{
    let at = place_at(part, place, key).place;
    if slot_at(part, place, at) != name {
        return Err(Stop::Aborts(3));
    }
    let p = read_node(part, place);
    move_child(part, slots, own, used, name, server, n, above, p, at)
}

// From the root of the name `top` down to the level above a level.
fn to_parent(
    part: &[u8],
    slots: usize,
    used: &mut [u64],
    key: u64,
    top: u64,
    level: usize,
) -> Result<Descent, Stop>
    requires walking { Walking part.now used.old }
    requires low { level ≤ highest_level }
    ensures over_read { over_read ToParent slots part used key top level (arrived part result) used.new }
    ensures within { IfOk result (λ d. InPart d.place) }
{
    let first = root(part, slots, used, top)?;
    if level_at(part, first) as usize <= level {
        return Err(Stop::Aborts(3));
    }
    go_down(part, slots, used, key, level + 1, top, first)
}

// A node below the root of the name `top`.
fn move_below(
    part: &[u8],
    slots: usize,
    own: &mut [u64],
    used: &mut [u64],
    top: u64,
    name: u64,
    server: u64,
    n: Node,
) -> Result<Answer, Stop>
    requires beginning { Beginning part.now own.old used.old }
    requires on { server < most_servers }
    requires small { SmallNode n }
    ensures { Operates slots part own used (below_plan slots top name server n) (answer_course result) }
{
    let key = n.keys[0];
    let level = n.level as usize;
    let d = to_parent(part, slots, used, key, top, level)?;
    move_at(
        part, slots, own, used, key, name, server, n, d.name, d.place,
    )
}

// "for an unmoved node 0 if free, 1 if there already"
fn move_if(
    part: &[u8],
    slots: usize,
    own: &mut [u64],
    used: &mut [u64],
    states: u64,
    top: u64,
    name: u64,
    server: u64,
    n: Node,
) -> Result<Answer, Stop>
    requires beginning { Beginning part.now own.old used.old }
    requires on { server < most_servers }
    requires small { SmallNode n }
    requires whole { Whole n }
    ensures { Operates slots part own used (move_if slots states top name server (value_of (node name) n)) (answer_course result) }
{
    if n.kind == 0 {
        return answers(part, used, Answer { a: 0, b: 0 });
    }
    let from = Name { number: name };
    if from.server() == server {
        return answers(part, used, Answer { a: 0, b: 1 });
    }
    if name == top {
        return move_root(part, slots, own, used, states, name, server, n);
    }
    if n.count < 7 {
        return Err(Stop::Aborts(3));
    }
    move_below(part, slots, own, used, top, name, server, n)
}

// The node of that name, where the metadata has these states and the root's name `top`.
fn move_named(
    part: &[u8],
    slots: usize,
    own: &mut [u64],
    used: &mut [u64],
    states: u64,
    top: u64,
    name: u64,
    server: u64,
) -> Result<Answer, Stop>
    requires beginning { Beginning part.now own.old used.old }
    requires on { server < most_servers }
    ensures { Operates slots part own used (named_plan slots states top name server) (answer_course result) }
{
    let place = ask_node(part, slots, used, name)?;
    let n = read_node(part, place);
    move_if(part, slots, own, used, states, top, name, server, n)
}

// The node of that name goes to the server: "in the order metadata, a migrated node, the path downward".
pub fn migrate(
    part: &[u8],
    slots: usize,
    own: &mut [u64],
    used: &mut [u64],
    name: u64,
    server: u64,
) -> Result<Answer, Stop>
    requires beginning { Beginning part.now own.old used.old }
    requires on { server < most_servers }
    ensures { Operates slots part own used (migrate_plan slots name server) (answer_course result) }
{
    let m = ask_meta(part, slots, used)?;
    move_named(part, slots, own, used, m.states, m.root, name, server)
}
