// A slot looked for on servers in a row, and taken.
ghost use Rattle.std.specs.Prelude.{◌≡◌, ◌+◌, ◌<◌, ◌≤◌, get_or, take, None};
ghost use Rattle.nodes.specs.Name.{name};
ghost use Rattle.nodes.specs.Placement.{row};
ghost use Rattle.operations.specs.Slot.{open_ones};
ghost use Rattle.client.specs.Sets.{held};
ghost use Rattle.client.specs.Lent.{OwnFits};
ghost use Rattle.client.specs.Bounds.{end_of_slots, end_of_names, own_most, most_servers};
ghost use Rattle.walk.specs.Walk.{course, ok_or};
ghost use Rattle.walk.specs.Ask.{Walking, WalkingOwn, Writing, over_lent, over_own};
ghost use Rattle.walk.specs.Counted.{counts_one, counts};
ghost use Rattle.walk.specs.Vector.{VectorAsked, passes, Looked};
ghost use Rattle.walk.specs.Search.{LookedInRow, Sought, TakenOn, TakenFor};
ghost use Rattle.client.specs.Layout.{ClientPart};

use crate::take::take_flag;
use crate::walk::{Stop, ask_meta, over, pop_used};
use client::own::own_record;
use client::part::{FIRST_FLAG_NUMBER, ITEM_WORDS};
use client::vector::{has_vector, is_fetched, seen_words, vector_fits};
use nodes::name::Name;
use nodes::placement::server_at;
use nodes::states::is_open;
use nodes::vector::{first_free, with_taken};

// A server's vector with own write i counted.
fn count_one(own: &[u64], s: usize, i: usize, words: [u64; 16]) -> [u64; 16]
    requires { (i < own_most) × OwnFits own.now }
    ensures { result ≡ counts_one own.now s i words }
{
    let number = own[ITEM_WORDS * i + 1];
    if number < FIRST_FLAG_NUMBER {
        return words;
    }
    let flag = Name {
        number: number - FIRST_FLAG_NUMBER,
    };
    if flag.server() as usize != s {
        return words;
    }
    let r = own_record(own, i);
    let values = r.slots;
    let taken = values[0] == 1;
    with_taken(words, flag.slot() as usize, taken)
}

// "own frees and takes counted": the operation's own, the first item of the list last.
fn count_own(own: &[u64], s: usize, seen: [u64; 16]) -> [u64; 16]
    requires { OwnFits own.now }
    ensures { result ≡ counts own.now s (get_or own.now 0 0) seen }
{
    let mut words = seen;
    for i in (0..own[0] as usize).rev() {
        let next = count_one(own, s, i, words);
        words = next;
    }
    words
}

// The question for a server's vector.
fn ask_vector(part: &[u8], used: &mut [u64], s: usize) -> Result<(), Stop>
    requires { Walking part.now used.old × (s < most_servers) }
    ensures { VectorAsked (held part.now) used.old s (course result) used.new }
{
    if over(part, used) {
        pop_used(used);
        return Err(Stop::Aborts(4));
    }
    if !vector_fits(part, s) {
        return Err(Stop::Refused);
    }
    if !has_vector(part, s) {
        return Err(Stop::LacksVector(s as u64));
    }
    Ok(())
}

// "a server is passed over only by a vector that this transaction fetched"
fn passed(part: &[u8], s: usize) -> Result<(), Stop>
    requires { (s < most_servers) × ClientPart part.now }
    ensures { course result ≡ passes (held part.now) s }
{
    if !is_fetched(part, s) {
        return Err(Stop::LacksVector(s as u64));
    }
    Ok(())
}

// A look at a server: the slot that is chosen there, or none where the server is passed over.
fn look_on(
    part: &[u8],
    slots: usize,
    own: &[u64],
    used: &mut [u64],
    s: usize,
    slot: usize,
) -> Result<Option<usize>, Stop>
    requires walking_own { WalkingOwn part.now own.now used.old × (s < most_servers) }
    requires above { slot < end_of_slots }
    ensures { over_own Looked slots part own used s slot (course result) (ok_or None result) used.new }
{
    ask_vector(part, used, s)?;
    let words = count_own(own, s, seen_words(part, s));
    match first_free(words, slots, slot) {
        Some(i) => Ok(Some(i)),
        None => {
            passed(part, s)?;
            Ok(None)
        }
    }
}

// The next server of a row: "absent servers are skipped", and those closing.
fn look_next(
    part: &[u8],
    slots: usize,
    own: &[u64],
    used: &mut [u64],
    states: u64,
    s: usize,
    slot: usize,
) -> Result<Option<usize>, Stop>
    requires walking_own { WalkingOwn part.now own.now used.old × (s < most_servers) }
    requires above { slot < end_of_slots }
    ensures { over_own LookedInRow slots part own used states s slot (course result) (ok_or None result) used.new }
{
    if !is_open(states, s) {
        return Ok(None);
    }
    look_on(part, slots, own, used, s, slot)
}

fn slot_name(s: usize, slot: usize) -> u64
    requires { (s < most_servers) × (slot < end_of_slots) }
    ensures { result ≡ name s slot }
{
    Name::new(s as u64, slot as u64).number
}

// On the open ones of the first n servers of a home's row, in its order: the name of the slot. "no slot is free (migrate: on that server)"
fn search(
    part: &[u8],
    slots: usize,
    own: &[u64],
    used: &mut [u64],
    states: u64,
    home: usize,
    n: usize,
    slot: usize,
) -> Result<u64, Stop>
    requires walking_own { WalkingOwn part.now own.now used.old }
    requires from { (home < most_servers) × (n ≤ most_servers) }
    requires above { slot < end_of_slots }
    ensures { over_own Sought slots part own used (open_ones states (take n (row home))) slot result used.new }
{
    for i in 0..n {
        let s = server_at(home, i);
        if let Some(j) = look_next(part, slots, own, used, states, s, slot)? {
            return Ok(slot_name(s, j));
        }
    }
    Err(Stop::Aborts(5))
}

// A slot above a slot number, on the first n servers of a home's row: looked for on those that the metadata read calls open, and taken.
// Its name.
pub fn take_on(
    part: &[u8],
    slots: usize,
    own: &mut [u64],
    used: &mut [u64],
    home: usize,
    n: usize,
    slot: usize,
) -> Result<u64, Stop>
    requires writing { Writing part.now own.old used.old own_most }
    requires from { (home < most_servers) × (n ≤ most_servers) }
    requires above { slot < end_of_slots }
    ensures { over_lent TakenOn slots part own used (take n (row home)) slot result own.new used.new }
{
    let states = ask_meta(part, slots, used)?.states;
    let name = search(part, slots, own, used, states, home, n, slot)?;
    take_flag(part, slots, own, used, name)?;
    Ok(name)
}

// A slot for a new node beside the node of that name, which is split.
pub fn take_for(
    part: &[u8],
    slots: usize,
    own: &mut [u64],
    used: &mut [u64],
    name: u64,
) -> Result<u64, Stop>
    requires writing { Writing part.now own.old used.old own_most }
    requires there { name < end_of_names }
    ensures { over_lent TakenFor slots part own used name result own.new used.new }
{
    let split = Name { number: name };
    let home = split.server() as usize;
    let slot = split.slot() as usize;
    take_on(part, slots, own, used, home, 8, slot)
}
