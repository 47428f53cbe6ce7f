// Opening a store in lent memory.
ghost use Rattle.std.specs.Prelude.{◌≡◌, [], ◌/◌, ◌≤◌, length, IsOk};
ghost use Rattle.memory.specs.Word.{view};
ghost use Rattle.layout.specs.Space.{Valid};
ghost use Rattle.layout.specs.Part.{in_part};
ghost use Rattle.nodes.specs.Bounds.{most_servers};
ghost use Rattle.nodes.specs.States.{first_states};
ghost use Rattle.server.specs.Layout as Srv;
ghost use Rattle.steps.specs.Whole.{server};
ghost use Rattle.steps.specs.Refusal.{open_refusal};
ghost use Rattle.steps.specs.Refused.{refused_by};
ghost use Rattle.kinds.specs.Parts.{StoreIn, AtServer, InWhole, head_words};
ghost use Rattle.engine.specs.Open.{with_head, new_server, new_servers, new_words, opened_in};
ghost use Rattle.engine.specs.Reached.{Reached};

use kinds::refusal::memory_refusal;
use kinds::whole::{server_at, words_for};
use memory::{fill_words, write_word};
use server::place::{Place, put};
use steps::refusal::Refusal;
use steps::sizes::Sizes;

// "those past the opened size absent at first"
fn first_states(servers: usize) -> u64
    requires { servers ≤ most_servers }
    ensures { result ≡ first_states servers }
{
    let one: u64 = 1;
    257 * ((one << servers as u32) - 1)
}

// A server's word becomes v.
fn put_word(mem: &mut [u8], sizes: Sizes, s: usize, place: Place, v: u64)
    requires { AtServer sizes (length mem.old) s × Valid Srv.places (Srv.server_block sizes.slots) place }
    ensures { InWhole sizes (in_part (server s) (Srv.put_step place v)) mem.old mem.new }
{
    let at = 8 * server_at(sizes, s);
    put(&mut mem[at..], sizes.slots, place, v);
}

// A server's part, where everything is 0. "A new store has the root, an empty leaf, in node 0; all versions are 0."
fn make_server(mem: &mut [u8], sizes: Sizes, s: usize)
    requires { AtServer sizes (length mem.old) s }
    ensures { InWhole sizes (new_server sizes s) mem.old mem.new }
{
    let states = first_states(sizes.servers);
    put_word(mem, sizes, s, Place::States, states);
    if s == 0 {
        put_word(mem, sizes, s, Place::Node(0, 0), 1);
        put_word(mem, sizes, s, Place::Vector(0), 1);
    }
}

// "Memory is laid out for 8 servers."
fn make_servers(mem: &mut [u8], sizes: Sizes)
    requires { StoreIn sizes (length mem.old) }
    ensures { InWhole sizes (new_servers sizes most_servers) mem.old mem.new }
{
    for s in 0..8 {
        make_server(mem, sizes, s);
    }
}

// "a 64-byte head holding the three sizes"
fn put_head(mem: &mut [u8], sizes: Sizes)
    requires { head_words ≤ length mem.old / 8 }
    ensures { view mem.new ≡ with_head sizes (view mem.old) }
{
    write_word(mem, 0, sizes.servers as u64);
    write_word(mem, 1, sizes.slots as u64);
    write_word(mem, 2, sizes.clients as u64);
}

fn make_new(mem: &mut [u8], sizes: Sizes)
    requires { StoreIn sizes (length mem.old) }
    ensures { view mem.new ≡ new_words sizes (view mem.old) }
{
    fill_words(mem, 0, words_for(sizes), 0);
    put_head(mem, sizes);
    make_servers(mem, sizes);
}

// A new store of these sizes, if the memory lent is long enough.
pub fn open(mem: &mut [u8], sizes: Sizes) -> Result<(), Refusal>
    ensures value { refused_by result ≡ open_refusal (length mem.old) sizes }
    ensures words { view mem.new ≡ opened_in mem sizes }
    ensures reached { IsOk result → Reached sizes [] mem.new }
{
    memory_refusal(mem.len(), sizes)?;
    make_new(mem, sizes);
    Ok(())
}
