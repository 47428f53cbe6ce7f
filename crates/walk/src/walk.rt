// A question of an operation's plan: an object, asked for in the client's part; and seen, where the operation may have written it itself: its own writes come first.
ghost use Rattle.std.specs.Prelude.{◌≡◌, ◌+◌, ◌<◌, ◌≤◌, length, get_or, IfOk};
ghost use Rattle.operations.specs.Object.{meta, node, flag};
ghost use Rattle.client.specs.Sets.{held};
ghost use Rattle.client.specs.Have.{Has, how};
ghost use Rattle.client.specs.Lent.{Lent, used_in};
ghost use Rattle.client.specs.Bounds.{end_of_names, end_of_numbers, used_room, first_flag_number};
ghost use Rattle.walk.specs.Walk.{over, course};
ghost use Rattle.walk.specs.Ask.{Noted, OwnGood, Meets, Outside, Asked, PlacedNode, SeenNode, AskedFlag, InPart, meta_in, node_in, placed_in, flag_in, popped, with_copy, Walking, WalkingOwn, over_own, unwritten};
ghost use Rattle.client.specs.Layout.{ClientPart};

use client::answer::Have;
use client::lookup::{flag_fits, flag_source, meta_fits, meta_source, node_stands, stand_fits};
use client::own::{find_own, own_record, own_value};
use client::part::{FIRST_FLAG_NUMBER, MOST_READ, Set, count};
use client::used::{is_used, push_used};
use nodes::name::{Name, in_store};
use nodes::node::Node;
use nodes::stored::read_node;

// Why a walk ends before its answer: a lack is to be fetched, Refused is refusal 10.
#[derive(Clone, Copy)]
pub enum Stop {
    LacksMeta,
    LacksNode(u64),
    LacksVector(u64),
    Refused,
    Aborts(u64),
}

// What an operation answers.
#[derive(Clone, Copy)]
pub struct Answer {
    pub a: u64,
    pub b: u64,
}

// What the metadata say: the root's name, and the servers' states.
#[derive(Clone, Copy)]
pub struct Meta {
    pub root: u64,
    pub states: u64,
}

// Is object 97 among the copies in use?
pub fn over(part: &[u8], used: &[u64]) -> bool
    requires { Noted (held part.now) used.now × ClientPart part.now }
    ensures { result ≡ over (held part.now) (used_in used.now) }
{
    let read = count(part, Set::Reads);
    let copies = used[0] as usize;
    MOST_READ < read + copies
}

// The last copy in use is taken back.
pub fn pop_used(used: &mut [u64])
    requires { (0 < get_or used.old 0 0) × (used_room ≤ length used.old) }
    ensures { used.new ≡ popped used.old }
{
    let count = used[0];
    used[0] = count - 1;
}

// A copy that is not in use yet comes into use.
fn note_copy(used: &mut [u64], number: u64)
    requires { Lent used.old }
    ensures { used.new ≡ with_copy used.old number }
{
    if is_used(used, number) {
        return;
    }
    push_used(used, number);
}

// A question about the object of that number: `found` is what the client has of it, `right` says whether that may be used, `lacks` what
// is to be fetched for it.
fn meet<T: Copy>(
    part: &[u8],
    used: &mut [u64],
    number: u64,
    found: Have<T>,
    right: bool,
    lacks: Stop,
) -> Result<T, Stop>
    requires { (number < end_of_numbers) × Noted (held part.now) used.old × ClientPart part.now }
    ensures meets { Meets (held part.now) used.old number (how found) right lacks (course result) used.new }
    ensures found { IfOk result (λ x. Has found x) }
{
    if over(part, used) {
        pop_used(used);
        return Err(Stop::Aborts(4));
    }
    match found {
        Have::Lacking => Err(lacks),
        _ if !right => Err(Stop::Refused),
        Have::Here(x) => Ok(x),
        Have::Copied(x) => {
            note_copy(used, number);
            Ok(x)
        }
    }
}

// An object that is not in the store: it stops every walk.
fn ask_outside(part: &[u8], used: &mut [u64]) -> Stop
    requires { Noted (held part.now) used.old × ClientPart part.now }
    ensures { Outside (held part.now) used.old result used.new }
{
    if over(part, used) {
        pop_used(used);
        return Stop::Aborts(4);
    }
    Stop::Refused
}

pub fn node_number(name: u64) -> u64
    requires { name < end_of_names }
    ensures value { result ≡ 1 + name }
    ensures within { result < end_of_numbers }
{
    1 + name
}

pub fn flag_number(name: u64) -> u64
    requires { name < end_of_names }
    ensures value { result ≡ first_flag_number + name }
    ensures within { result < end_of_numbers }
{
    FIRST_FLAG_NUMBER + name
}

pub fn ask_meta(part: &[u8], slots: usize, used: &mut [u64]) -> Result<Meta, Stop>
    requires { Walking part.now used.old }
    ensures { unwritten Asked slots part used meta (course result) (meta_in result) used.new }
{
    let found = meta_source(part);
    let right = meta_fits(slots, found);
    let m = meet(part, used, 0, found, right, Stop::LacksMeta)?;
    Ok(Meta {
        root: m.value,
        states: m.states,
    })
}

// A node of the store, in the part: where it stands.
fn place_node(part: &[u8], used: &mut [u64], name: u64) -> Result<usize, Stop>
    requires { (name < end_of_names) × Noted (held part.now) used.old × ClientPart part.now }
    ensures { PlacedNode part.now used.old name result used.new }
{
    let number = node_number(name);
    let found = node_stands(part, number);
    let right = stand_fits(part, found);
    meet(part, used, number, found, right, Stop::LacksNode(name))
}

// Where a node stands in the part.
pub fn ask_node(part: &[u8], slots: usize, used: &mut [u64], name: u64) -> Result<usize, Stop>
    requires { Walking part.now used.old }
    ensures unwritten { unwritten Asked slots part used (node name) (course result) (placed_in part.now result) used.new }
    ensures within { IfOk result InPart }
{
    if !in_store(slots, name) {
        return Err(ask_outside(part, used));
    }
    place_node(part, used, name)
}

// An own write of the operation, else what the part has.
fn see_in_store(part: &[u8], own: &[u64], used: &mut [u64], name: u64) -> Result<Node, Stop>
    requires { (name < end_of_names) × OwnGood own.now × Noted (held part.now) used.old × ClientPart part.now }
    ensures { SeenNode (held part.now) own.now used.old name result used.new }
{
    let number = node_number(name);
    match find_own(own, number) {
        Some(i) => Ok(own_record(own, i)),
        None => {
            let place = place_node(part, used, name)?;
            Ok(read_node(part, place))
        }
    }
}

// A node that the operation may have written.
pub fn see_node(
    part: &[u8],
    slots: usize,
    own: &[u64],
    used: &mut [u64],
    name: u64,
) -> Result<Node, Stop>
    requires { WalkingOwn part.now own.now used.old }
    ensures { over_own Asked slots part own used (node name) (course result) (node_in result) used.new }
{
    if !in_store(slots, name) {
        return Err(ask_outside(part, used));
    }
    see_in_store(part, own, used, name)
}

// A flag of the store, in the part: it is in its server's vector. Is the slot taken?
fn ask_flag(part: &[u8], used: &mut [u64], name: u64) -> Result<bool, Stop>
    requires { (name < end_of_names) × Noted (held part.now) used.old × ClientPart part.now }
    ensures { AskedFlag (held part.now) used.old name result used.new }
{
    let number = flag_number(name);
    let found = flag_source(part, name);
    let right = flag_fits(part, name, found);
    let flag = Name { number: name };
    let f = meet(
        part,
        used,
        number,
        found,
        right,
        Stop::LacksVector(flag.server()),
    )?;
    Ok(f.value == 1)
}

// A flag that the operation may have written.
pub fn see_flag(
    part: &[u8],
    slots: usize,
    own: &[u64],
    used: &mut [u64],
    name: u64,
) -> Result<bool, Stop>
    requires { WalkingOwn part.now own.now used.old }
    ensures { over_own Asked slots part own used (flag name) (course result) (flag_in result) used.new }
{
    if !in_store(slots, name) {
        return Err(ask_outside(part, used));
    }
    let number = flag_number(name);
    match find_own(own, number) {
        Some(i) => Ok(own_value(own, i) == 1),
        None => ask_flag(part, used, name),
    }
}
