// The last questions before the answer: what would be written is looked at once all is read. Err says what ends the walk instead.
ghost use Rattle.std.specs.Prelude.{◌≡◌, not, [], ◌∷◌, ◌<◌, ◌≤◌};
ghost use Rattle.client.specs.declared.part.Set.TheVariants.{Reads, Writes};
ghost use Rattle.client.specs.Layout.{writes_count, ClientPart, limit};
ghost use Rattle.client.specs.Sets.{held, find, record_at};
ghost use Rattle.client.specs.Lent.{OwnFits, own_list};
ghost use Rattle.client.specs.Work.{version_in, version_there, count_new, versions_there, any_at_last};
ghost use Rattle.client.specs.Bounds.{end_of_numbers, own_most, most_keys};
ghost use Rattle.walk.specs.Walk.{Going, course};
ghost use Rattle.walk.specs.Ask.{OwnKept};
ghost use Rattle.change.specs.Fit.{record_fits, entries_fit};
ghost use Rattle.change.specs.Last.{new_one, stays_below, there, reason_of, last_reason};
ghost use Rattle.change.specs.Work.{judged};

use client::items::has;
use client::lookup::copied_record;
use client::own::own_record;
use client::part::{
    ITEM_WORDS, LAST_NODE_NUMBER, MOST_WRITTEN, Set, WRITES_COUNT, find, get_field, item_word,
};
use nodes::node::Node;
use walk::walk::Stop;

// "a node with keys that don't rise or a level above 4 would be written"
fn fits(n: Node) -> bool
    requires { n.count ≤ most_keys }
    ensures { result ≡ record_fits n }
{
    n.keys_rise() && n.level <= 4
}

fn all_fit(own: &[u64]) -> bool
    requires { OwnKept own.now }
    ensures { result ≡ entries_fit (own_list own.now) }
{
    for i in 0..own[0] as usize {
        if !fits(own_record(own, i)) {
            return false;
        }
    }
    true
}

// 1 for an object that the write set lacks.
fn new_one(part: &[u8], number: u64) -> usize
    requires { ClientPart part.now }
    ensures value { result ≡ new_one (held part.now) number }
    ensures within { result ≤ 1 }
{
    if has(part, Set::Writes, number) { 0 } else { 1 }
}

fn count_new(part: &[u8], own: &[u64]) -> usize
    requires { OwnFits own.now × ClientPart part.now }
    ensures value { result ≡ count_new (held part.now) (own_list own.now) }
    ensures within { result ≤ own_most }
{
    let mut c: usize = 0;
    for i in 0..own[0] as usize {
        c += new_one(part, own[ITEM_WORDS * i + 1]);
    }
    c
}

// The version of a read object's record, without the rest of it.
fn version_at(part: &[u8], i: usize) -> u64
    requires { (i < limit Reads) × ClientPart part.now }
    ensures { result ≡ (record_at (held part.now) Reads i).version }
{
    item_word(part, Set::Reads, i, 3)
}

// The version of an object that was read, or that came into use.
fn version_in(part: &[u8], number: u64) -> u64
    requires { (number < end_of_numbers) × ClientPart part.now }
    ensures { result ≡ version_in (held part.now) number (find (held part.now) Reads number) }
{
    match find(part, Set::Reads, number) {
        Some(i) => version_at(part, i),
        None => copied_record(part, number).version,
    }
}

// Is the version of an object that was read one of 32 bits, or did the object come into use in this step?
fn version_there(part: &[u8], number: u64) -> bool
    requires { ClientPart part.now }
    ensures { result ≡ version_there (held part.now) number (find (held part.now) Reads number) }
{
    match find(part, Set::Reads, number) {
        Some(i) => version_at(part, i) <= 4294967295,
        None => !has(part, Set::Writes, number),
    }
}

// Refusal 10 for the version of a written object; of flags none is kept.
fn there(part: &[u8], number: u64) -> bool
    requires { ClientPart part.now }
    ensures { result ≡ there (held part.now) number }
{
    number > LAST_NODE_NUMBER || version_there(part, number)
}

fn all_there(part: &[u8], own: &[u64]) -> bool
    requires { OwnFits own.now × ClientPart part.now }
    ensures { result ≡ versions_there (held part.now) (own_list own.now) }
{
    for i in 0..own[0] as usize {
        if !there(part, own[ITEM_WORDS * i + 1]) {
            return false;
        }
    }
    true
}

// "8 a written version is 4,294,967,295": of metadata and nodes.
fn stays_below(part: &[u8], number: u64) -> bool
    requires { ClientPart part.now }
    ensures { result ≡ stays_below (held part.now) number }
{
    number > LAST_NODE_NUMBER || version_in(part, number) != 4294967295
}

fn all_below(part: &[u8], own: &[u64]) -> bool
    requires { OwnFits own.now × ClientPart part.now }
    ensures { result ≡ not (any_at_last (held part.now) (own_list own.now)) }
{
    for i in 0..own[0] as usize {
        if !stays_below(part, own[ITEM_WORDS * i + 1]) {
            return false;
        }
    }
    true
}

// The first reason to abort: 3, then 4, then 8; in between comes the refusal.
fn reason_of(part: &[u8], fit: bool, new: usize, known: bool, below: bool) -> Result<(), Stop>
    requires { (new ≤ own_most) × (held part.now writes_count ≤ limit Writes) × ClientPart part.now }
    ensures { course result ≡ judged Going (reason_of (held part.now) fit new known below) }
{
    if !fit {
        return Err(Stop::Aborts(3));
    }
    let written = get_field(part, WRITES_COUNT) as usize;
    if MOST_WRITTEN < written + new {
        return Err(Stop::Aborts(4));
    }
    if !known {
        return Err(Stop::Refused);
    }
    if !below {
        return Err(Stop::Aborts(8));
    }
    Ok(())
}

// Of all own writes.
pub fn last_reason(part: &[u8], own: &[u64]) -> Result<(), Stop>
    requires { OwnKept own.now × (held part.now writes_count ≤ limit Writes) × ClientPart part.now }
    ensures { course result ≡ judged Going (last_reason (held part.now) (own_list own.now)) }
{
    let fit = all_fit(own);
    let new = count_new(part, own);
    let known = all_there(part, own);
    let below = all_below(part, own);
    reason_of(part, fit, new, known, below)
}

// Of one write.
pub fn one_reason(part: &[u8], number: u64, n: Node) -> Result<(), Stop>
    requires { (n.count ≤ most_keys) × (held part.now writes_count ≤ limit Writes) × ClientPart part.now }
    ensures { course result ≡ judged Going (last_reason (held part.now) ((number, n) ∷ [])) }
{
    let fit = fits(n);
    let new = new_one(part, number);
    let known = there(part, number);
    let below = stays_below(part, number);
    reason_of(part, fit, new, known, below)
}
