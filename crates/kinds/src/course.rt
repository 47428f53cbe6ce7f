// The course of a commit at its client: which servers have prepared, which have applied.
ghost use Rattle.std.specs.Prelude.{◌≡◌, ◌≤◌, ◌<◌, length};
ghost use Rattle.memory.specs.Word.{view};
ghost use Rattle.client.specs.Layout.{field, field_count};
ghost use Rattle.client.specs.Course.{noted};
ghost use Rattle.steps.specs.Steps.{covers};
ghost use Rattle.kinds.specs.Parts.{InClient, AtClient, ClientAt};
ghost use Rattle.kinds.specs.Judge.{of_client};
ghost use Rattle.kinds.specs.Course.{covered, mark, covers_with};
ghost use Rattle.client.specs.Bounds.{most_servers};

use crate::judge::field_of;
use crate::whole::client_at;
use client::part::{PARTICIPANTS, set_field};
use memory::bits;
use steps::sizes::Sizes;

// A field of a client becomes v.
pub fn put_field(mem: &mut [u8], sizes: Sizes, client: usize, i: usize, v: u64)
    requires { AtClient sizes (length mem.old) client × (i < field_count) }
    ensures { InClient sizes client (mark i v) mem.old mem.new }
{
    let at = 8 * client_at(sizes, client);
    set_field(&mut mem[at..], i, v);
}

// A server enters the set of servers that a client's field has.
pub fn note(mem: &mut [u8], sizes: Sizes, client: usize, i: usize, server: usize)
    requires { ClientAt sizes (length mem.old) client server × (i < field_count) }
    ensures { InClient sizes client (noted (field i) server) mem.old mem.new }
{
    let set = field_of(mem, sizes, client, i);
    put_field(mem, sizes, client, i, bits::with(set, server as u32));
}

// Is the server not one of the set, or done?
fn is_covered(set: u64, done: u64, server: usize) -> bool
    requires { server < most_servers }
    ensures { result ≡ covered set done server }
{
    if bits::has(set, server as u32) {
        return bits::has(done, server as u32);
    }
    true
}

// Are all of the set done?
fn covers(n: usize, set: u64, done: u64) -> bool
    requires { n ≤ most_servers }
    ensures { result ≡ covers n set done }
{
    for s in 0..n {
        if !is_covered(set, done, s) {
            return false;
        }
    }
    true
}

// Are all participants in the field's set, once the server is?
pub fn is_last(mem: &[u8], sizes: Sizes, client: usize, i: usize, server: usize) -> bool
    requires { ClientAt sizes (length mem.now) client server × (i < field_count) }
    ensures { result ≡ covers_with sizes (of_client sizes (view mem.now) client) i server }
{
    let set = field_of(mem, sizes, client, PARTICIPANTS);
    let done = field_of(mem, sizes, client, i);
    covers(8, set, bits::with(done, server as u32))
}
