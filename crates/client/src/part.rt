// A client's part, a lent slice of bytes that begins at the client's first word: its fields and its items.
ghost use Rattle.std.specs.Prelude.{◌≡◌, ◌+◌, ◌*◌, ◌<◌, ◌≤◌, length};
ghost use Rattle.layout.specs.Space.{at};
ghost use Rattle.client.specs.Layout.{client_words, client_block, field, item, vector_word, limit, base, client_length, ClientPart, field_count, item_words, record_words, vector_words};
ghost use Rattle.client.specs.Sets.{held, at_most, count, number_at, record_at, find};
ghost use Rattle.nodes.specs.Found.{Inside};
ghost use Rattle.client.specs.Part.{Did, put_field, put_fields, put_item, put_number, put_vector, drop_vector};
ghost use Rattle.client.specs.Bounds.{most_servers};
ghost use Rattle.client.specs.declared.part.Set.TheVariants.{Reads};

use crate::record::vector_words;
use memory::{read_word, write_word, write_words};
use nodes::node::Node;
use nodes::stored::{read_node, write_node};

// The words of a client's part: "the length that given sizes call for" has this for each client.
pub const CLIENT_WORDS: usize = 7223;

// The fields of a client's part.
pub const PHASE: usize = 0;

pub const OP_NUMBER: usize = 1;

pub const OP_KEY: usize = 2;

pub const OP_VALUE: usize = 3;

pub const OP_SERVER: usize = 4;

pub const PARTICIPANTS: usize = 5;

pub const PREPARED: usize = 6;

pub const APPLIED: usize = 7;

pub const FETCHED_VECTORS: usize = 8;

pub const LOST: usize = 9;

pub const READS_COUNT: usize = 10;

pub const WRITES_COUNT: usize = 11;

pub const META_STATES: usize = 12;

pub const META_ROOT: usize = 13;

pub const META_VERSION: usize = 14;

// The phases of a transaction: numbers, since they stand in a word of the memory, which may be any number there; `phase_fits` says which are refused.
pub const NO_TRANSACTION: u64 = 0;

pub const OPEN: u64 = 1;

pub const COMMITTING: u64 = 2;

pub const DECIDED: u64 = 3;

// The words of an item of a set: the object's number, then its record.
pub const ITEM_WORDS: usize = 34;

pub const RECORD_WORDS: usize = 33;

// Reason 4: "object 97 would be read or 49 written".
pub const MOST_READ: usize = 96;

pub const MOST_WRITTEN: usize = 48;

// The pairs of a list: "count (the value field, 1 to 32)".
pub const MOST_LISTED: u64 = 32;

// Numbers of objects: the metadata 0, then the nodes, then the flags.
pub const LAST_NODE_NUMBER: u64 = 8192;

pub const FIRST_FLAG_NUMBER: u64 = 8193;

// The read set, the write set, and the copies of inner nodes.
#[derive(Clone, Copy)]
pub enum Set {
    Reads,
    Writes,
    Copies,
}

// Where a set begins: with the numbers of its objects.
fn base(set: Set) -> usize
    ensures value { result ≡ base set }
    ensures within { (limit set ≤ limit Reads) × (result + item_words * limit set ≤ client_length) }
{
    match set {
        Set::Reads => 15,
        Set::Writes => 3279,
        Set::Copies => 4911,
    }
}

// How many items it may have.
fn limit(set: Set) -> usize
    ensures { result ≡ limit set }
{
    match set {
        Set::Reads => MOST_READ,
        Set::Writes => MOST_WRITTEN,
        Set::Copies => 64,
    }
}

// Where the number of an item's object stands.
fn number_place(set: Set, i: usize) -> usize
    requires { i < limit set }
    ensures value { result ≡ at client_words client_block (item set i 0) }
    ensures within { result < client_length }
{
    base(set) + i
}

// Where the record of an item begins: behind the numbers of its set.
pub fn record_start(set: Set, i: usize) -> usize
    requires { i < limit set }
    ensures value { result ≡ at client_words client_block (item set i 1) }
    ensures within { result + record_words ≤ client_length }
{
    base(set) + limit(set) + RECORD_WORDS * i
}

// Where the copy of a server's vector begins.
pub fn vector_at(s: usize) -> usize
    requires { s < most_servers }
    ensures value { result ≡ at client_words client_block (vector_word s 0) }
    ensures within { result + vector_words ≤ client_length }
{
    7087 + 17 * s
}

pub fn get_field(part: &[u8], i: usize) -> u64
    requires { (i < field_count) × ClientPart part.now }
    ensures { result ≡ held part.now (field i) }
{
    read_word(part, i)
}

pub fn set_field(part: &mut [u8], i: usize, v: u64)
    requires { (i < field_count) × ClientPart part.old }
    ensures { Did (put_field i v) part.old part.new }
{
    write_word(part, i, v);
}

// The fields from i on become those given.
pub fn set_fields(part: &mut [u8], i: usize, values: &[u64])
    requires { (i + length values.now ≤ field_count) × ClientPart part.old }
    ensures { Did (put_fields i values.now) part.old part.new }
{
    write_words(part, i, values);
}

// The copy of a server's vector becomes the words given.
pub fn set_vector(part: &mut [u8], s: usize, words: [u64; 16])
    requires { (s < most_servers) × ClientPart part.old }
    ensures { Did (put_vector s words) part.old part.new }
{
    write_words(part, vector_at(s), &vector_words(words));
}

pub fn drop_vector(part: &mut [u8], s: usize)
    requires { (s < most_servers) × ClientPart part.old }
    ensures { Did (drop_vector s) part.old part.new }
{
    write_word(part, vector_at(s), 0);
}

// A word of the copy of a server's vector.
pub fn vector_word(part: &[u8], s: usize, j: usize) -> u64
    requires { (s < most_servers) × (j < vector_words) × ClientPart part.now }
    ensures { result ≡ held part.now (vector_word s j) }
{
    read_word(part, vector_at(s) + j)
}

// A word of an item's record, counted from 1 on.
pub fn item_word(part: &[u8], set: Set, i: usize, j: usize) -> u64
    requires { (i < limit set) × (0 < j) × (j < item_words) × ClientPart part.now }
    ensures { result ≡ held part.now (item set i j) }
{
    read_word(part, record_start(set, i) + (j - 1))
}

// The number of an item's object.
pub fn number_at(part: &[u8], set: Set, i: usize) -> u64
    requires { (i < limit set) × ClientPart part.now }
    ensures { result ≡ number_at (held part.now) set i }
{
    read_word(part, number_place(set, i))
}

pub fn record_at(part: &[u8], set: Set, i: usize) -> Node
    requires { (i < limit set) × ClientPart part.now }
    ensures { result ≡ record_at (held part.now) set i }
{
    read_node(part, record_start(set, i))
}

// Item i of a set becomes the object of that number with that record.
pub fn set_item(part: &mut [u8], set: Set, i: usize, number: u64, node: Node)
    requires { (i < limit set) × ClientPart part.old }
    ensures { Did (put_item set i number node) part.old part.new }
{
    write_word(part, number_place(set, i), number);
    write_node(part, record_start(set, i), node);
}

fn at_most(limit: usize, n: u64) -> usize
    ensures value { result ≡ at_most limit n }
    ensures within { result ≤ limit }
{
    limit.min(n as usize)
}

pub fn set_number(part: &mut [u8], set: Set, i: usize, number: u64)
    requires { (i < limit set) × ClientPart part.old }
    ensures { Did (put_number set i number) part.old part.new }
{
    write_word(part, number_place(set, i), number);
}

// How many items a set has, at most its limit.
pub fn count(part: &[u8], set: Set) -> usize
    requires { ClientPart part.now }
    ensures value { result ≡ count (held part.now) set }
    ensures within { result ≤ limit set }
{
    match set {
        Set::Reads => at_most(MOST_READ, get_field(part, READS_COUNT)),
        Set::Writes => at_most(MOST_WRITTEN, get_field(part, WRITES_COUNT)),
        Set::Copies => 64,
    }
}

// The first item of a set with that number.
pub fn find(part: &[u8], set: Set, number: u64) -> Option<usize>
    requires { ClientPart part.now }
    ensures value { result ≡ find (held part.now) set number }
    ensures within { Inside result (limit set) }
{
    for i in 0..count(part, set) {
        if number_at(part, set, i) == number {
            return Some(i);
        }
    }
    None
}
