// "The metadata gets each server's state: absent, open or closing": bit s of a server s that is not absent, and bit 8 + s of one that is open.
ghost use Rattle.std.specs.Prelude.{◌≡◌, ◌<◌};
ghost use Rattle.nodes.specs.States.{is_present, is_open, is_closing, states_fit, metadata_fits, present};
ghost use Rattle.nodes.specs.Bounds.{most_servers};

use crate::name::in_store;
use memory::bits;

// The set of the servers that are not absent.
pub fn present(states: u64) -> u64
    ensures { result ≡ present states }
{
    states % 256
}

// Is the server not absent?
pub fn is_present(states: u64, server: usize) -> bool
    requires { server < most_servers }
    ensures { result ≡ is_present states server }
{
    bits::has(present(states), server as u32)
}

// Does it take new nodes?
pub fn is_open(states: u64, server: usize) -> bool
    requires { server < most_servers }
    ensures { result ≡ is_open states server }
{
    is_present(states, server) && bits::has(states / 256, server as u32)
}

// Is it there, and takes no new nodes?
pub fn is_closing(states: u64, server: usize) -> bool
    requires { server < most_servers }
    ensures { result ≡ is_closing states server }
{
    is_present(states, server) && !bits::has(states / 256, server as u32)
}

// Refusal 10: are these the states of eight servers, of which one at least is not absent?
pub fn states_fit(states: u64) -> bool
    ensures { result ≡ states_fit states }
{
    states < 65536 && present(states) != 0
}

// And does the metadata name a node of the store, with a version of 32 bits?
pub fn metadata_fits(slots: usize, root: u64, states: u64, version: u64) -> bool
    ensures { result ≡ metadata_fits slots root states version }
{
    in_store(slots, root) && version <= 4294967295 && states_fit(states)
}
