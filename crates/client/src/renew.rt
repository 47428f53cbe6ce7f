// Copies are renewed when a transaction ends.
ghost use Rattle.std.specs.Prelude.{◌≡◌, ◌+◌, ◌<◌, ◌≤◌};
ghost use Rattle.nodes.specs.Found.{Inside};
ghost use Rattle.client.specs.declared.part.Set.TheVariants.{Writes};
ghost use Rattle.client.specs.Sets.{held, count};
ghost use Rattle.client.specs.Part.{Did};
ghost use Rattle.client.specs.Renew.{drop_outer, versioned, new_version, with_inner, inner_below, rank, ranked, renewed, renew_nth, renew_meta, renew_in, renew_flag, for_writes, renew_written, renew, renew_kept, finish};
ghost use Rattle.client.specs.Layout.{ClientPart, limit};

use crate::commit::inner_at;
use crate::copies::{copy_node, drop_node};
use crate::items::version_read;
use crate::life::reset;
use crate::part::{
    LOST, META_STATES, NO_TRANSACTION, Set, count, find, get_field, item_word, number_at,
    record_at, set_fields, set_vector,
};
use crate::vector::{has_vector, vector_copy};
use nodes::name::Name;
use nodes::node::Node;
use nodes::object::Object;
use nodes::vector::with_taken;

// A node that is written and not inner loses its copy.
fn drop_outer(part: &mut [u8], i: usize)
    requires { (i < limit Writes) × ClientPart part.old }
    ensures { Did (drop_outer i) part.old part.new }
{
    let number = number_at(part, Set::Writes, i);
    if let Object::Node(_) = Object::from(number) {
        if !inner_at(part, Set::Writes, i) {
            drop_node(part, number);
        }
    }
}

fn versioned(n: Node, version: u64) -> Node
    ensures { result ≡ versioned n version }
{
    Node { version, ..n }
}

// The version read plus 1.
pub fn new_version(part: &[u8], number: u64) -> u64
    requires { ClientPart part.now }
    ensures { result ≡ new_version (held part.now) number }
{
    let read = version_read(part, number);
    if read < 4294967295 { read + 1 } else { 0 }
}

// One more, where write item i is an inner node with a number below this one.
fn with_inner(part: &[u8], number: u64, i: usize, below: usize) -> usize
    requires { (i < limit Writes) × (below ≤ i) × ClientPart part.now }
    ensures value { result ≡ with_inner (held part.now) number i below }
    ensures within { result ≤ i + 1 }
{
    if inner_at(part, Set::Writes, i) && number_at(part, Set::Writes, i) < number {
        below + 1
    } else {
        below
    }
}

// How many written inner nodes have a number below this one.
fn inner_below(part: &[u8], number: u64) -> usize
    requires { ClientPart part.now }
    ensures value { result ≡ inner_below (held part.now) number (count (held part.now) Writes) }
    ensures within { result ≤ limit Writes }
{
    let mut below: usize = 0;
    for i in 0..count(part, Set::Writes) {
        below = with_inner(part, number, i, below);
    }
    below
}

// 1 + the place of write item i among the written inner nodes by name; 0 for another object.
fn rank(part: &[u8], i: usize) -> usize
    requires { (i < limit Writes) × ClientPart part.now }
    ensures { result ≡ rank (held part.now) i }
{
    if !inner_at(part, Set::Writes, i) {
        return 0;
    }
    inner_below(part, number_at(part, Set::Writes, i)) + 1
}

// The write item of a rank.
fn ranked(part: &[u8], k: usize) -> Option<usize>
    requires { ClientPart part.now }
    ensures value { result ≡ ranked (held part.now) k }
    ensures within { Inside result (limit Writes) }
{
    for i in 0..count(part, Set::Writes) {
        if rank(part, i) == k {
            return Some(i);
        }
    }
    None
}

// The copy of write item i.
fn renewed(part: &[u8], i: usize) -> Node
    requires { (i < limit Writes) × ClientPart part.now }
    ensures { result ≡ renewed (held part.now) i }
{
    let version = new_version(part, number_at(part, Set::Writes, i));
    versioned(record_at(part, Set::Writes, i), version)
}

fn renew_nth(part: &mut [u8], k: usize)
    requires { (k < limit Writes) × ClientPart part.old }
    ensures { Did (renew_nth k) part.old part.new }
{
    if let Some(i) = ranked(part, k + 1) {
        copy_node(part, number_at(part, Set::Writes, i), renewed(part, i));
    }
}

fn renew_meta(part: &mut [u8])
    requires { ClientPart part.old }
    ensures { Did renew_meta part.old part.new }
{
    if let Some(i) = find(part, Set::Writes, 0) {
        let root = item_word(part, Set::Writes, i, 19);
        let version = new_version(part, 0);
        let states = item_word(part, Set::Writes, i, 20);
        set_fields(part, META_STATES, &[states, root, version]);
    }
}

// A flag is renewed in its server's vector, if there is a copy of that.
fn renew_in(part: &mut [u8], name: u64, value: u64)
    requires { ClientPart part.old }
    ensures { Did (renew_in (held part.old) name value) part.old part.new }
{
    let flag = Name { number: name };
    if flag.server() >= Name::SERVERS {
        return;
    }
    let s = flag.server() as usize;
    if has_vector(part, s) {
        let copy = vector_copy(part, s);
        set_vector(part, s, with_taken(copy, flag.slot() as usize, value == 1));
    }
}

fn renew_flag(part: &mut [u8], i: usize)
    requires { (i < limit Writes) × ClientPart part.old }
    ensures { Did (renew_flag i) part.old part.new }
{
    if let Object::Flag(flag) = Object::from(number_at(part, Set::Writes, i)) {
        renew_in(part, flag.number, item_word(part, Set::Writes, i, 19));
    }
}

// Three loops of one line each: one function over the step would have to say of every step what these say of theirs, and be no shorter.
fn drop_outers(part: &mut [u8])
    requires { ClientPart part.old }
    ensures { Did (for_writes drop_outer) part.old part.new }
{
    for i in 0..count(part, Set::Writes) {
        drop_outer(part, i);
    }
}

fn renew_inner(part: &mut [u8])
    requires { ClientPart part.old }
    ensures { Did (for_writes renew_nth) part.old part.new }
{
    for i in 0..count(part, Set::Writes) {
        renew_nth(part, i);
    }
}

fn renew_flags(part: &mut [u8])
    requires { ClientPart part.old }
    ensures { Did (for_writes renew_flag) part.old part.new }
{
    for i in 0..count(part, Set::Writes) {
        renew_flag(part, i);
    }
}

// The copies of what was written: inner nodes, metadata, flags.
fn renew_written(part: &mut [u8])
    requires { ClientPart part.old }
    ensures { Did renew_written part.old part.new }
{
    renew_inner(part);
    renew_meta(part);
    renew_flags(part);
}

fn renew(part: &mut [u8])
    requires { ClientPart part.old }
    ensures { Did renew part.old part.new }
{
    drop_outers(part);
    renew_written(part);
}

fn renew_kept(part: &mut [u8])
    requires { ClientPart part.old }
    ensures { Did renew_kept part.old part.new }
{
    if get_field(part, LOST) != 1 {
        renew(part);
    }
}

// The transaction has ended: its copies are renewed, but not those of a lost client.
pub fn finish(part: &mut [u8])
    requires { ClientPart part.old }
    ensures { Did finish part.old part.new }
{
    renew_kept(part);
    reset(part, NO_TRANSACTION);
}
