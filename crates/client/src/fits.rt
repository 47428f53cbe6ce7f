// Refusal 10, "Something stored that this step's rule reads has a field out of range": what each rule reads of its client's own part.
ghost use Rattle.std.specs.Prelude.{◌≡◌, true, ◌<◌, leb};
ghost use Rattle.client.specs.declared.part.Set.TheVariants.{Writes};
ghost use Rattle.client.specs.Layout.{ClientPart, field, limit, field_count};
ghost use Rattle.client.specs.Record.{number_in_store};
ghost use Rattle.client.specs.Sets.{held, count, number_at};
ghost use Rattle.client.specs.Items.{all_below};
ghost use Rattle.client.specs.Fits.{said_count, kind_fits, is_read, young, stored_at, read_fits, version_fits, servers_fit, servers_known, numbers_fit, migrate_fits, list_fits, op_fits, fit_to_work, fit_to_commit, fit_to_prepare, fit_to_abort, fit_to_unlock, stored_record_fits, write_fits, writes_fit, flag_renewal_fits, inner_renewal_fits, renewal_fits, fit_to_renew, fit_to_apply, sets_fit};
ghost use Rattle.client.specs.Bounds.{last_node_number};

use crate::commit::{all_take_part, states_read};
use crate::items::{has, inner_before_after, is_home, is_inner, version_read};
use crate::part::{
    APPLIED, FIRST_FLAG_NUMBER, LAST_NODE_NUMBER, LOST, MOST_LISTED, MOST_READ, MOST_WRITTEN,
    OP_KEY, OP_NUMBER, OP_SERVER, OP_VALUE, PARTICIPANTS, PREPARED, READS_COUNT, Set, WRITES_COUNT,
    count, get_field, item_word, number_at, record_at, vector_word,
};
use crate::range::whole_fits;
use nodes::name::{Name, in_store};
use nodes::object::Object;
use nodes::states::states_fit;

// The set of servers in a field has servers of the store only.
fn servers_fit(part: &[u8], i: usize) -> bool
    requires { (i < field_count) × ClientPart part.now }
    ensures { result ≡ servers_fit (held part.now) (field i) }
{
    get_field(part, i) < 256
}

// Is the object with that number in the store?
fn number_in_store(slots: usize, number: u64) -> bool
    ensures { result ≡ number_in_store slots number }
{
    match Object::from(number) {
        Object::Metadata => true,
        Object::Node(name) | Object::Flag(name) => in_store(slots, name.number),
    }
}

// A set has no more items than it may.
fn count_fits(part: &[u8], set: Set) -> bool
    requires { ClientPart part.now }
    ensures { result ≡ leb (said_count (held part.now) set) (limit set) }
{
    match set {
        Set::Reads => get_field(part, READS_COUNT) <= MOST_READ as u64,
        Set::Writes => get_field(part, WRITES_COUNT) <= MOST_WRITTEN as u64,
        Set::Copies => true,
    }
}

// And their objects are objects of the store.
fn numbers_fit(part: &[u8], slots: usize, set: Set) -> bool
    requires { ClientPart part.now }
    ensures { result ≡ numbers_fit slots (held part.now) set }
{
    if !count_fits(part, set) {
        return false;
    }
    for i in 0..count(part, set) {
        if !number_in_store(slots, number_at(part, set, i)) {
            return false;
        }
    }
    true
}

// Both the read set and the write set.
fn sets_fit(part: &[u8], slots: usize) -> bool
    requires { ClientPart part.now }
    ensures { result ≡ sets_fit slots (held part.now) }
{
    numbers_fit(part, slots, Set::Reads) && numbers_fit(part, slots, Set::Writes)
}

// A migrate's node and server are in the store.
fn migrate_fits(part: &[u8], slots: usize) -> bool
    requires { ClientPart part.now }
    ensures { result ≡ migrate_fits slots (held part.now) }
{
    in_store(slots, get_field(part, OP_KEY)) && get_field(part, OP_SERVER) < Name::SERVERS
}

// A list's "count (the value field, 1 to 32)".
fn list_fits(part: &[u8]) -> bool
    requires { ClientPart part.now }
    ensures { result ≡ list_fits (held part.now) }
{
    let count = get_field(part, OP_VALUE);
    1 <= count && count <= MOST_LISTED
}

// The operation that waits is one of seven, and what a migrate and a list need of its fields.
fn op_fits(part: &[u8], slots: usize) -> bool
    requires { ClientPart part.now }
    ensures { result ≡ op_fits slots (held part.now) }
{
    match get_field(part, OP_NUMBER) {
        6 => migrate_fits(part, slots),
        7 => list_fits(part),
        op => op < 7,
    }
}

// What a work step reads before its walk.
pub fn fit_to_work(part: &[u8], slots: usize) -> bool
    requires { ClientPart part.now }
    ensures { result ≡ fit_to_work slots (held part.now) }
{
    op_fits(part, slots) && sets_fit(part, slots)
}

// The kind of an item of a set.
fn kind_fits(part: &[u8], set: Set, i: usize) -> bool
    requires { (i < limit set) × ClientPart part.now }
    ensures { result ≡ kind_fits (held part.now) set i }
{
    match Object::from(number_at(part, set, i)) {
        Object::Node(_) => item_word(part, set, i, 1) <= 2,
        _ => true,
    }
}

// The kinds of all items of a set.
fn kinds_fit(part: &[u8], set: Set) -> bool
    requires { ClientPart part.now }
    ensures { result ≡ all_below (count (held part.now) set) (kind_fits (held part.now) set) }
{
    for i in 0..count(part, set) {
        if !kind_fits(part, set, i) {
            return false;
        }
    }
    true
}

// "a written object's read": that of a write item.
fn is_read(part: &[u8], i: usize) -> bool
    requires { (i < limit Writes) × ClientPart part.now }
    ensures { result ≡ is_read (held part.now) i }
{
    has(part, Set::Reads, number_at(part, Set::Writes, i))
}

// Those of all write items.
fn all_read(part: &[u8]) -> bool
    requires { ClientPart part.now }
    ensures { result ≡ all_below (count (held part.now) Writes) (is_read (held part.now)) }
{
    for i in 0..count(part, Set::Writes) {
        if !is_read(part, i) {
            return false;
        }
    }
    true
}

// Where all servers take part, does the metadata read say which they are?
fn servers_known(part: &[u8]) -> bool
    requires { ClientPart part.now }
    ensures { result ≡ servers_known (held part.now) }
{
    !all_take_part(part) || states_fit(states_read(part))
}

// What a commit reads.
pub fn fit_to_commit(part: &[u8], slots: usize) -> bool
    requires { ClientPart part.now }
    ensures { result ≡ fit_to_commit slots (held part.now) }
{
    sets_fit(part, slots)
        && kinds_fit(part, Set::Reads)
        && kinds_fit(part, Set::Writes)
        && all_read(part)
        && servers_known(part)
}

// What a prepare reads before it checks.
pub fn fit_to_prepare(part: &[u8], slots: usize) -> bool
    requires { ClientPart part.now }
    ensures { result ≡ fit_to_prepare slots (held part.now) }
{
    servers_fit(part, PARTICIPANTS) && servers_fit(part, PREPARED) && sets_fit(part, slots)
}

// What an abort reads.
pub fn fit_to_abort(part: &[u8], slots: usize) -> bool
    requires { ClientPart part.now }
    ensures { result ≡ fit_to_abort slots (held part.now) }
{
    servers_fit(part, PREPARED) && numbers_fit(part, slots, Set::Reads)
}

// And where a server has prepared, what says what is locked there.
pub fn fit_to_unlock(part: &[u8], slots: usize) -> bool
    requires { ClientPart part.now }
    ensures { result ≡ fit_to_unlock slots (held part.now) }
{
    servers_fit(part, PARTICIPANTS) && numbers_fit(part, slots, Set::Writes)
}

// The version read of an object has a next one; of flags none is kept.
fn young(part: &[u8], number: u64) -> bool
    requires { ClientPart part.now }
    ensures { result ≡ young (held part.now) number }
{
    number > LAST_NODE_NUMBER || version_read(part, number) < 4294967295
}

// Does a server store something of the object?
fn is_stored(part: &[u8], server: u64, number: u64) -> bool
    requires { ClientPart part.now }
    ensures { result ≡ stored_at (held part.now) server number }
{
    is_home(server, number) || inner_before_after(part, number)
}

// The record of a write item, if the server is its home.
fn stored_record_fits(part: &[u8], slots: usize, server: u64, i: usize) -> bool
    requires { (i < limit Writes) × ClientPart part.now }
    ensures { result ≡ stored_record_fits slots (held part.now) server i }
{
    let number = number_at(part, Set::Writes, i);
    !is_home(server, number) || whole_fits(slots, number, record_at(part, Set::Writes, i))
}

// The version read of a write item, if the server stores it.
fn version_fits(part: &[u8], server: u64, i: usize) -> bool
    requires { (i < limit Writes) × ClientPart part.now }
    ensures { result ≡ version_fits (held part.now) server i }
{
    let number = number_at(part, Set::Writes, i);
    !is_stored(part, server, number) || young(part, number)
}

// A written node has its read; of a flag it is not looked at.
fn read_fits(part: &[u8], i: usize) -> bool
    requires { (i < limit Writes) × ClientPart part.now }
    ensures { result ≡ read_fits (held part.now) i }
{
    number_at(part, Set::Writes, i) > LAST_NODE_NUMBER || is_read(part, i)
}

// A write item as a server stores it.
fn write_fits(part: &[u8], slots: usize, server: u64, i: usize) -> bool
    requires { (i < limit Writes) × ClientPart part.now }
    ensures { result ≡ write_fits slots (held part.now) server i }
{
    read_fits(part, i)
        && stored_record_fits(part, slots, server, i)
        && version_fits(part, server, i)
}

// All that a server stores.
fn writes_fit(part: &[u8], slots: usize, server: u64) -> bool
    requires { ClientPart part.now }
    ensures { result ≡ writes_fit slots (held part.now) server }
{
    for i in 0..count(part, Set::Writes) {
        if !write_fits(part, slots, server, i) {
            return false;
        }
    }
    true
}

// A written flag, and whether there is a copy of its vector.
fn flag_renewal_fits(part: &[u8], slots: usize, i: usize) -> bool
    requires { (i < limit Writes) × (last_node_number < number_at (held part.now) Writes i) × ClientPart part.now }
    ensures { result ≡ flag_renewal_fits slots (held part.now) i }
{
    let number = number_at(part, Set::Writes, i);
    let name = Name {
        number: number - FIRST_FLAG_NUMBER,
    };
    let s = name.server();
    s < Name::SERVERS
        && vector_word(part, s as usize, 0) <= 1
        && whole_fits(slots, number, record_at(part, Set::Writes, i))
}

// Written metadata, or a node that is inner.
fn inner_renewal_fits(part: &[u8], slots: usize, i: usize) -> bool
    requires { (i < limit Writes) × ClientPart part.now }
    ensures { result ≡ inner_renewal_fits slots (held part.now) i }
{
    let number = number_at(part, Set::Writes, i);
    let node = record_at(part, Set::Writes, i);
    !is_inner(number, node) || (whole_fits(slots, number, node) && young(part, number))
}

// A write item as copies are renewed by it.
fn renewal_fits(part: &[u8], slots: usize, i: usize) -> bool
    requires { (i < limit Writes) × ClientPart part.now }
    ensures { result ≡ renewal_fits slots (held part.now) i }
{
    if number_at(part, Set::Writes, i) > LAST_NODE_NUMBER {
        flag_renewal_fits(part, slots, i)
    } else {
        inner_renewal_fits(part, slots, i)
    }
}

fn renewals_fit(part: &[u8], slots: usize) -> bool
    requires { ClientPart part.now }
    ensures { result ≡ all_below (count (held part.now) Writes) (renewal_fits slots (held part.now)) }
{
    for i in 0..count(part, Set::Writes) {
        if !renewal_fits(part, slots, i) {
            return false;
        }
    }
    true
}

// The renewal of copies; "a lost client gets none".
fn fit_to_renew(part: &[u8], slots: usize) -> bool
    requires { ClientPart part.now }
    ensures { result ≡ fit_to_renew slots (held part.now) }
{
    match get_field(part, LOST) {
        0 => renewals_fit(part, slots),
        lost => lost == 1,
    }
}

// What the last apply at a server reads, after a prepare that was fit: who takes part and which objects are read and written is judged.
pub fn fit_to_apply_too(part: &[u8], slots: usize, server: u64) -> bool
    requires { ClientPart part.now × (fit_to_prepare slots (held part.now) ≡ true) }
    ensures { result ≡ fit_to_apply slots (held part.now) server true }
{
    servers_fit(part, APPLIED) && writes_fit(part, slots, server) && fit_to_renew(part, slots)
}

// What an apply at a server reads; the last one renews the copies.
pub fn fit_to_apply(part: &[u8], slots: usize, server: u64, last: bool) -> bool
    requires { ClientPart part.now }
    ensures { result ≡ fit_to_apply slots (held part.now) server last }
{
    servers_fit(part, APPLIED)
        && numbers_fit(part, slots, Set::Reads)
        && fit_to_unlock(part, slots)
        && writes_fit(part, slots, server)
        && (!last || fit_to_renew(part, slots))
}
