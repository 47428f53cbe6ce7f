// The word of a lock, and what client c may do with it.
ghost use Rattle.std.specs.Prelude.{◌≡◌, ◌<◌, ◌≤◌};
ghost use Rattle.server.specs.Lock.{busy, locked, unlocked, lock_in_range};
ghost use Rattle.nodes.specs.Bounds.{most_clients};

use memory::bits;

// What an object is asked for.
#[derive(Clone, Copy)]
pub enum Use {
    Fetch,
    Read,
    Write,
}

// Is it "locked against this use by another client (fetch: by a writer)"?
pub fn is_busy(word: u64, client: u32, wanted: Use) -> bool
    requires { client < most_clients }
    ensures { result ≡ busy wanted client word }
{
    if word >= 65536 {
        return word != 65536 + client as u64;
    }
    match wanted {
        Use::Fetch | Use::Read => false,
        Use::Write => bits::without(word, client) != 0,
    }
}

// The word with the client's lock on it.
pub fn with_lock(word: u64, client: u32, writing: bool) -> u64
    requires { client < most_clients }
    ensures { result ≡ locked writing client word }
{
    if writing {
        return 65536 + client as u64;
    }
    if word >= 65536 {
        return word;
    }
    bits::with(word, client)
}

// The word without a lock of the client.
pub fn without_lock(word: u64, client: u32) -> u64
    requires { client < most_clients }
    ensures { result ≡ unlocked client word }
{
    if word < 65536 {
        return bits::without(word, client);
    }
    if word == 65536 + client as u64 {
        return 0;
    }
    word
}

// Are those that the word names clients of a store with so many?
pub fn is_lock(word: u64, clients: u32) -> bool
    requires { clients ≤ most_clients }
    ensures { result ≡ lock_in_range clients word }
{
    if word >= 65536 {
        return word < 65536 + clients as u64;
    }
    let one: u64 = 1;
    word < (one << clients)
}
