// 3 commit: "commit with a participant .. done"; "with none the commit step decides and ends".
ghost use Rattle.std.specs.Prelude.{◌≡◌, length};
ghost use Rattle.memory.specs.Word.{view};
ghost use Rattle.client.specs.Participants.{participants_of, committing};
ghost use Rattle.steps.specs.Steps.{commit};
ghost use Rattle.kinds.specs.Parts.{AtClient, InClient};
ghost use Rattle.kinds.specs.Judge.{of_client, Awaited};
ghost use Rattle.kinds.specs.Kinds.{Comes};

use crate::course::put_field;
use crate::known::fit_to_commit;
use crate::life::reset_at;
use crate::whole::client_part;
use client::commit::participants;
use client::part::{COMMITTING, NO_TRANSACTION, PARTICIPANTS, PHASE};
use steps::outcome::Outcome;
use steps::sizes::Sizes;

// The servers that take part in a client's commit.
fn participants_of(mem: &[u8], sizes: Sizes, client: usize) -> u64
    requires { AtClient sizes (length mem.now) client }
    ensures { result ≡ participants_of (of_client sizes (view mem.now) client) }
{
    participants(client_part(mem, sizes, client))
}

// The transaction waits for its participants.
fn await_servers(mem: &mut [u8], sizes: Sizes, client: usize, servers: u64)
    requires { Awaited sizes mem.old client servers }
    ensures { InClient sizes client committing mem.old mem.new }
{
    put_field(mem, sizes, client, PHASE, COMMITTING);
    put_field(mem, sizes, client, PARTICIPANTS, servers);
}

pub fn commit(mem: &mut [u8], sizes: Sizes, client: usize) -> Outcome
    requires { AtClient sizes (length mem.old) client }
    ensures { Comes sizes (λ m. commit sizes m client) mem.old result mem.new }
{
    if !fit_to_commit(mem, sizes, client) {
        return Outcome::Refused(10);
    }
    let servers = participants_of(mem, sizes, client);
    if servers == 0 {
        reset_at(mem, sizes, client, NO_TRANSACTION);
        return Outcome::Committed;
    }
    await_servers(mem, sizes, client, servers);
    Outcome::Done
}
