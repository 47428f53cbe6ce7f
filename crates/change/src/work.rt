// The work step's walk of an operation that writes, and the last questions before its answer.
ghost use Rattle.std.specs.Prelude.{◌≡◌, false};
ghost use Rattle.operations.specs.Operation.{reading};
ghost use Rattle.client.specs.Layout.{op_number, ClientPart};
ghost use Rattle.client.specs.Sets.{held};
ghost use Rattle.client.specs.Work.{waiting};
ghost use Rattle.walk.specs.Walk.{answer_course};
ghost use Rattle.walk.specs.Ask.{Walking, Beginning};
ghost use Rattle.change.specs.Operated.{Operates};
ghost use Rattle.walk.specs.Stopped.{Waiting};
ghost use Rattle.walk.specs.declared.operation.Operation.TheVariants.{Write};
ghost use Rattle.walk.specs.Operation.{operation_of};
ghost use Rattle.change.specs.Work.{moves, Ready, WorksOn};
ghost use Rattle.change.specs.Leaf.{Makes};

use crate::delete::delete;
use crate::insert::insert;
use crate::last::last_reason;
use crate::leaf::Changed;
use crate::migrate::migrate;
use crate::up::carry_up;
use client::part::{OP_KEY, OP_SERVER, OP_VALUE, get_field};
use walk::operation::Update;
use walk::walk::{Answer, Stop};

// "Migrate moves a node"; insert and delete begin at a leaf.
pub fn moves(op: Update) -> bool
    ensures { result ≡ moves op }
{
    match op {
        Update::Insert => false,
        Update::Delete => false,
        Update::Migrate => true,
    }
}

// An insert or a delete, down to its leaf: None where no leaf changes. No move comes here.
pub fn to_leaf(
    part: &[u8],
    slots: usize,
    used: &mut [u64],
    op: Update,
) -> Result<Option<Changed>, Stop>
    requires walking { Walking part.now used.old }
    requires waits { (operation_of (held part.now op_number) ≡ Write op) × (moves op ≡ false) }
    ensures { Makes slots part used (reading slots (waiting (held part.now))) result }
{
    let key = get_field(part, OP_KEY);
    match op {
        Update::Insert => insert(part, slots, used, key, get_field(part, OP_VALUE)),
        Update::Delete => delete(part, slots, used, key),
        Update::Migrate => Err(Stop::Refused),
    }
}

// "insert, .. delete, .. migrate (key is the node name)"
fn walk(
    part: &[u8],
    slots: usize,
    own: &mut [u64],
    used: &mut [u64],
    op: Update,
) -> Result<Answer, Stop>
    requires beginning { Beginning part.now own.old used.old }
    requires waits { Waiting (held part.now) × (operation_of (held part.now op_number) ≡ Write op) }
    ensures { Operates slots part own used (reading slots (waiting (held part.now))) (answer_course result) }
{
    if moves(op) {
        let key = get_field(part, OP_KEY);
        let server = get_field(part, OP_SERVER);
        return migrate(part, slots, own, used, key, server);
    }
    let change = to_leaf(part, slots, used, op)?;
    carry_up(part, slots, own, used, change)
}

// Both lists are lent empty. With the answer, `own` has the operation's writes; `used` has the copies in use.
pub fn work(
    part: &[u8],
    slots: usize,
    own: &mut [u64],
    used: &mut [u64],
    op: Update,
) -> Result<Answer, Stop>
    requires ready { Ready own.old used.old × ClientPart part.now }
    requires waits { Waiting (held part.now) × (operation_of (held part.now op_number) ≡ Write op) }
    ensures { WorksOn slots (held part.now) (answer_course result) own used }
{
    let answer = walk(part, slots, own, used, op)?;
    last_reason(part, own)?;
    Ok(answer)
}
