// The life of a transaction: begun, given an operation, ended, lost.
ghost use Rattle.client.specs.Part.{Did};
ghost use Rattle.client.specs.Lent.{InUse, used_in};
ghost use Rattle.client.specs.Life.{reset, give_part, abort_part, lose_part};
ghost use Rattle.client.specs.Layout.{ClientPart};

use crate::copies::{drop_all, drop_used};
use crate::part::{LOST, NO_TRANSACTION, OP_NUMBER, PARTICIPANTS, PHASE, set_field, set_fields};

// A transaction begins (1), or has ended (0).
pub fn reset(part: &mut [u8], phase: u64)
    requires { ClientPart part.old }
    ensures { Did (reset phase) part.old part.new }
{
    set_field(part, PHASE, phase);
    set_field(part, OP_NUMBER, 0);
    set_fields(part, PARTICIPANTS, &[0; 7]);
}

// An operation waits.
pub fn give(part: &mut [u8], op: u64, key: u64, value: u64, server: u64)
    requires { ClientPart part.old }
    ensures { Did (give_part op key value server) part.old part.new }
{
    set_fields(part, OP_NUMBER, &[op, key, value, server]);
}

// The transaction ends without effect; the copies in use are those of this step.
pub fn abort(part: &mut [u8], used: &[u64])
    requires { InUse used.now × ClientPart part.old }
    ensures { Did (abort_part (used_in used.now)) part.old part.new }
{
    drop_used(part, used);
    reset(part, NO_TRANSACTION);
}

// A client with a decided transaction is lost.
pub fn lose(part: &mut [u8])
    requires { ClientPart part.old }
    ensures { Did lose_part part.old part.new }
{
    set_field(part, LOST, 1);
    drop_all(part);
}
