// Refusal 10 at servers: what a step reads there is in range, and what it points to is there.
ghost use Rattle.std.specs.Prelude.{◌≡◌, true, ◌<◌, length};
ghost use Rattle.memory.specs.Word.{view};
ghost use Rattle.server.specs.Lock.{lock_in_range};
ghost use Rattle.nodes.specs.Object.{object_of};
ghost use Rattle.server.specs.Object.{lock_of};
ghost use Rattle.client.specs.Items.{has, all_below};
ghost use Rattle.client.specs.Layout.{field, limit, field_count};
ghost use Rattle.steps.specs.Whole.{server as at_server};
ghost use Rattle.steps.specs.Judge.{has_transaction, writes, holders_fit, lock_fits};
ghost use Rattle.kinds.specs.Parts.{AtClient, StoreIn, stored_in, ObjectAt};
ghost use Rattle.kinds.specs.Items.{as_item, read_item};
ghost use Rattle.kinds.specs.Judge.{of_client, reader_fits, word_fits};
ghost use Rattle.client.specs.declared.part.Set.TheVariants.{Reads};

use crate::items::{Item, read_item};
use crate::sizes::between;
use crate::whole::{client_part, server_part};
use client::items::has;
use client::part::{DECIDED, MOST_WRITTEN, OPEN, PHASE, Set, WRITES_COUNT, get_field};
use memory::bits;
use nodes::object::Object;
use server::lock::is_lock;
use server::object::lock_place;
use server::place::get;
use steps::sizes::Sizes;

// A field of a client.
pub fn field_of(mem: &[u8], sizes: Sizes, client: usize, i: usize) -> u64
    requires { AtClient sizes (length mem.now) client × (i < field_count) }
    ensures { result ≡ of_client sizes (view mem.now) client (field i) }
{
    get_field(client_part(mem, sizes, client), i)
}

// Is there an item of the object in a client's set?
pub fn has_item(mem: &[u8], sizes: Sizes, client: usize, set: Set, number: u64) -> bool
    requires { AtClient sizes (length mem.now) client }
    ensures { result ≡ has (of_client sizes (view mem.now) client) set number }
{
    has(client_part(mem, sizes, client), set, number)
}

// Item i of a client's read set.
pub fn item_at(mem: &[u8], sizes: Sizes, client: usize, i: usize) -> Item
    requires { AtClient sizes (length mem.now) client × (i < limit Reads) }
    ensures { as_item result ≡ read_item (of_client sizes (view mem.now) client) i }
{
    read_item(client_part(mem, sizes, client), i)
}

// "a lock's transaction": has the client one?
fn has_transaction(mem: &[u8], sizes: Sizes, client: usize) -> bool
    requires { AtClient sizes (length mem.now) client }
    ensures { result ≡ has_transaction sizes (stored_in sizes (view mem.now)) client }
{
    let phase = field_of(mem, sizes, client, PHASE);
    between(OPEN, DECIDED, phase)
}

// "or its write": is the object in the client's write set?
fn writes(mem: &[u8], sizes: Sizes, client: usize, number: u64) -> bool
    requires { AtClient sizes (length mem.now) client }
    ensures { result ≡ writes sizes (stored_in sizes (view mem.now)) client number }
{
    if field_of(mem, sizes, client, WRITES_COUNT) <= MOST_WRITTEN as u64 {
        return has_item(mem, sizes, client, Set::Writes, number);
    }
    false
}

// Does the word not name the client, or has it a transaction?
fn reader_fits(mem: &[u8], sizes: Sizes, word: u64, client: usize) -> bool
    requires { AtClient sizes (length mem.now) client }
    ensures { result ≡ reader_fits sizes (view mem.now) word client }
{
    if bits::has(word, client as u32) {
        return has_transaction(mem, sizes, client);
    }
    true
}

// All readers that the word names.
fn readers_fit(mem: &[u8], sizes: Sizes, word: u64) -> bool
    requires { StoreIn sizes (length mem.now) }
    ensures { result ≡ all_below sizes.clients (reader_fits sizes (view mem.now) word) }
{
    for d in 0..sizes.clients {
        if !reader_fits(mem, sizes, word, d) {
            return false;
        }
    }
    true
}

// Those that a lock's word names: many readers, or one writer.
fn holders_fit(mem: &[u8], sizes: Sizes, number: u64, word: u64) -> bool
    requires { StoreIn sizes (length mem.now) × (lock_in_range sizes.clients word ≡ true) }
    ensures { result ≡ holders_fit sizes (stored_in sizes (view mem.now)) number word }
{
    if word < 65536 {
        return readers_fit(mem, sizes, word);
    }
    let writer = (word - 65536) as usize;
    if has_transaction(mem, sizes, writer) {
        return writes(mem, sizes, writer, number);
    }
    false
}

// Is a lock's word in range, and are its holders there?
pub fn word_fits(mem: &[u8], sizes: Sizes, number: u64, word: u64) -> bool
    requires { StoreIn sizes (length mem.now) }
    ensures { result ≡ word_fits sizes (view mem.now) number word }
{
    if is_lock(word, sizes.clients as u32) {
        return holders_fit(mem, sizes, number, word);
    }
    false
}

// The word of an object's lock at a server.
pub fn lock_word(mem: &[u8], sizes: Sizes, server: usize, number: u64) -> u64
    requires { ObjectAt sizes (length mem.now) server number }
    ensures { result ≡ stored_in sizes (view mem.now) (at_server server (lock_of (object_of number))) }
{
    let place = lock_place(Object::from(number));
    get(server_part(mem, sizes, server), sizes.slots, place)
}

// Is an object's lock at a server in range, and are its holders there?
pub fn lock_fits(mem: &[u8], sizes: Sizes, server: usize, number: u64) -> bool
    requires { ObjectAt sizes (length mem.now) server number }
    ensures { result ≡ lock_fits sizes (stored_in sizes (view mem.now)) server number }
{
    word_fits(mem, sizes, number, lock_word(mem, sizes, server, number))
}
