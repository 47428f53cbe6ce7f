// The layout of the whole memory: how long it is, and where each part begins.
ghost use Rattle.std.specs.Prelude.{◌≡◌, ◌+◌, ◌/◌, ◌<◌, ◌≤◌, length};
ghost use Rattle.memory.specs.Word.{view};
ghost use Rattle.server.specs.Layout.{part_words};
ghost use Rattle.steps.specs.Whole.{Allowed, words_for, server_at, client_at};
ghost use Rattle.kinds.specs.Parts.{AtClient, AtServer, length_answer, head_words, most_words};
ghost use Rattle.client.specs.Layout.{ClientPart, client_length};
ghost use Rattle.client.specs.Sets.{held};
ghost use Rattle.kinds.specs.Judge.{of_client, of_server, held_by};
ghost use Rattle.client.specs.Bounds.{most_servers};

use crate::sizes::allowed;
use client::part::CLIENT_WORDS;
use server::place::part_words;
use steps::refusal::Refusal;
use steps::sizes::Sizes;

// The words of the head, the parts of eight servers and the clients' parts.
pub fn words_for(sizes: Sizes) -> usize
    requires { Allowed sizes }
    ensures value { result ≡ words_for sizes }
    ensures within { (head_words ≤ result) × (result ≤ most_words) }
{
    8 + 8 * part_words(sizes.slots) + CLIENT_WORDS * sizes.clients
}

// The word at which a server's part begins.
pub fn server_at(sizes: Sizes, server: usize) -> usize
    requires { Allowed sizes × (server < most_servers) }
    ensures value { result ≡ server_at sizes server }
    ensures within { (result ≤ most_words) × (result + part_words sizes.slots ≤ words_for sizes) }
{
    8 + server * part_words(sizes.slots)
}

// The word at which a client's part begins.
pub fn client_at(sizes: Sizes, client: usize) -> usize
    requires { Allowed sizes × (client < sizes.clients) }
    ensures value { result ≡ client_at sizes client }
    ensures within { (result ≤ most_words) × (result + client_length ≤ words_for sizes) }
{
    8 + 8 * part_words(sizes.slots) + CLIENT_WORDS * client
}

// A client's part of the memory, to be read. One to be written is lent where it is written: of a `&mut` that is handed back no contract says how it
// is left.
pub fn client_part(mem: &[u8], sizes: Sizes, client: usize) -> &[u8]
    requires { AtClient sizes (length mem.now) client }
    ensures part { ClientPart result.now }
    ensures holds { held result.now ≡ of_client sizes (view mem.now) client }
{
    &mem[8 * client_at(sizes, client)..]
}

// A server's part.
pub fn server_part(mem: &[u8], sizes: Sizes, server: usize) -> &[u8]
    requires { AtServer sizes (length mem.now) server }
    ensures part { part_words sizes.slots ≤ length result.now / 8 }
    ensures holds { held_by sizes result.now ≡ of_server sizes (view mem.now) server }
{
    &mem[8 * server_at(sizes, server)..]
}

// "the length that given sizes call for is a public answer": in bytes, or refused by 2.
pub fn length_for(sizes: Sizes) -> Result<usize, Refusal>
    ensures { result ≡ length_answer sizes }
{
    if allowed(sizes) {
        return Ok(8 * words_for(sizes));
    }
    Err(Refusal::BadSizes)
}
