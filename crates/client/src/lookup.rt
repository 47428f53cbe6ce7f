// What a client has of an object: in the write set, else the read set, else the copies.
ghost use Rattle.std.specs.Prelude.{◌≡◌, ◌+◌, ◌<◌, ◌≤◌, option_map};
ghost use Rattle.memory.specs.Word.{view};
ghost use Rattle.nodes.specs.Stored.{node_at};
ghost use Rattle.client.specs.Sets.{held};
ghost use Rattle.client.specs.Have.{how, stood, short, short_of, short_in, StandsInPart, OptionInPart, IsNode, InSets, copied, copied_meta, copied_node, copied_flag, copy_or_lacking, metadata_of, source, stand_usable, meta_usable, flag_usable};
ghost use Rattle.client.specs.Record.{single};
ghost use Rattle.client.specs.Layout.{record_words, client_length, ClientPart};
ghost use Rattle.client.specs.Bounds.{end_of_names, end_of_numbers, first_flag_number};

use crate::answer::{Have, Short};
use crate::part::{
    FIRST_FLAG_NUMBER, LAST_NODE_NUMBER, META_ROOT, META_STATES, META_VERSION, Set, find,
    get_field, record_start, vector_word,
};
use crate::range::{metadata, single};
use memory::bits::has;
use nodes::name::Name;
use nodes::node::Node;
use nodes::standing::{in_range_at, kind_at, slot_at, version_at};
use nodes::states::metadata_fits;
use nodes::stored::read_node;

// The copy of the metadata.
fn meta_copy(part: &[u8]) -> Option<Short>
    requires { ClientPart part.now }
    ensures { copy_or_lacking (option_map metadata_of result) ≡ copied_meta (held part.now) }
{
    let states = get_field(part, META_STATES);
    if states == 0 {
        return None;
    }
    Some(Short {
        version: get_field(part, META_VERSION),
        value: get_field(part, META_ROOT),
        states,
    })
}

// Where the copy of the node with that number stands.
fn node_copy(part: &[u8], number: u64) -> Option<usize>
    requires { ClientPart part.now }
    ensures value { copy_or_lacking (option_map (node_at (view part.now)) result) ≡ copied_node (held part.now) number }
    ensures within { OptionInPart result }
{
    let i = find(part, Set::Copies, number)?;
    Some(record_start(Set::Copies, i))
}

// The copy of the flag of that name, in its server's vector: 1 for a slot that is taken.
fn flag_copy(part: &[u8], name: u64) -> Option<u64>
    requires { (name < end_of_names) × ClientPart part.now }
    ensures { copy_or_lacking (option_map (single 0) result) ≡ copied_flag (held part.now) name }
{
    let flag = Name { number: name };
    let s = flag.server() as usize;
    let slot = flag.slot();
    if vector_word(part, s, 0) == 0 {
        return None;
    }
    let word = vector_word(part, s, 1 + (slot / 64) as usize);
    Some(u64::from(has(word, (slot % 64) as u32)))
}

// The copy of the object with that number.
pub fn copied(part: &[u8], number: u64) -> Option<Node>
    requires { (number < end_of_numbers) × ClientPart part.now }
    ensures { copy_or_lacking result ≡ copied (held part.now) number }
{
    if number == 0 {
        let m = meta_copy(part)?;
        return Some(metadata(m.version, m.value, m.states));
    }
    if number <= LAST_NODE_NUMBER {
        let at = node_copy(part, number)?;
        return Some(read_node(part, at));
    }
    let value = flag_copy(part, number - FIRST_FLAG_NUMBER)?;
    Some(single(0, value))
}

// Its record, and a free node where there is no copy.
pub fn copied_record(part: &[u8], number: u64) -> Node
    requires { (number < end_of_numbers) × ClientPart part.now }
    ensures { result ≡ (copied (held part.now) number).node }
{
    match copied(part, number) {
        Some(record) => record,
        None => Node::free(0),
    }
}

// Where the object with that number stands in the write set, else in the read set.
fn in_sets(part: &[u8], number: u64) -> Option<usize>
    requires { ClientPart part.now }
    ensures { InSets part.now number result }
{
    if let Some(i) = find(part, Set::Writes, number) {
        return Some(record_start(Set::Writes, i));
    }
    let i = find(part, Set::Reads, number)?;
    Some(record_start(Set::Reads, i))
}

// The node with that number in the write set, else the read set, else the copies: where its record stands.
pub fn node_stands(part: &[u8], number: u64) -> Have<usize>
    requires { IsNode number × ClientPart part.now }
    ensures result_value { stood (view part.now) result ≡ source (held part.now) number }
    ensures within { StandsInPart result }
{
    if let Some(at) = in_sets(part, number) {
        return Have::Here(at);
    }
    match node_copy(part, number) {
        Some(at) => Have::Copied(at),
        None => Have::Lacking,
    }
}

// The version and the value of a record in a set.
fn short_at(part: &[u8], at: usize) -> Short
    requires { (at + record_words ≤ client_length) × ClientPart part.now }
    ensures { result ≡ short_of (node_at (view part.now) at) }
{
    Short {
        version: version_at(part, at),
        value: slot_at(part, at, 0),
        states: slot_at(part, at, 1),
    }
}

// The metadata in the write set, else the read set, else the copies.
pub fn meta_source(part: &[u8]) -> Have<Short>
    requires { ClientPart part.now }
    ensures { result ≡ short (source (held part.now) 0) }
{
    if let Some(at) = in_sets(part, 0) {
        return Have::Here(short_at(part, at));
    }
    match meta_copy(part) {
        Some(copy) => Have::Copied(copy),
        None => Have::Lacking,
    }
}

// The flag of that name in the write set, else the read set, else the copies.
pub fn flag_source(part: &[u8], name: u64) -> Have<Short>
    requires { (name < end_of_names) × ClientPart part.now }
    ensures { result ≡ short (source (held part.now) (first_flag_number + name)) }
{
    if let Some(at) = in_sets(part, FIRST_FLAG_NUMBER + name) {
        return Have::Here(short_at(part, at));
    }
    match flag_copy(part, name) {
        Some(value) => Have::Copied(Short {
            version: 0,
            value,
            states: 0,
        }),
        None => Have::Lacking,
    }
}

// May the node that was found be used? A copy must be an inner node.
pub fn stand_fits(part: &[u8], found: Have<usize>) -> bool
    requires { StandsInPart found × ClientPart part.now }
    ensures { result ≡ stand_usable (view part.now) found }
{
    match found {
        Have::Here(at) => in_range_at(part, at),
        Have::Copied(at) => in_range_at(part, at) && kind_at(part, at) == 2,
        Have::Lacking => false,
    }
}

// May the metadata that was found be used?
pub fn meta_fits(slots: usize, found: Have<Short>) -> bool
    ensures { result ≡ meta_usable slots (short_in found) }
{
    match found {
        Have::Here(m) | Have::Copied(m) => metadata_fits(slots, m.value, m.states, m.version),
        Have::Lacking => false,
    }
}

// May the flag that was found be used? A copy needs its server's vector. Where nothing was found, nothing is out of range.
pub fn flag_fits(part: &[u8], name: u64, found: Have<Short>) -> bool
    requires { (name < end_of_names) × ClientPart part.now }
    ensures { result ≡ flag_usable (held part.now) name (how found) (short_in found) }
{
    let flag = Name { number: name };
    match found {
        Have::Here(f) => f.value <= 1,
        Have::Copied(f) => f.value <= 1 && vector_word(part, flag.server() as usize, 0) == 1,
        Have::Lacking => true,
    }
}
