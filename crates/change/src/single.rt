// An insert or a delete whose leaf stays in range writes that one node, and one that changes nothing writes none: neither is lent a
// list of own writes.
ghost use Rattle.std.specs.Prelude.{◌≡◌, ◌≤◌, length, get_or};
ghost use Rattle.client.specs.Layout.{op_number, writes_count, limit, ClientPart};
ghost use Rattle.client.specs.Sets.{held};
ghost use Rattle.client.specs.Bounds.{used_room};
ghost use Rattle.client.specs.declared.part.Set.TheVariants.{Writes};
ghost use Rattle.walk.specs.Walk.{Going, course};
ghost use Rattle.walk.specs.Ask.{Noted, Walking};
ghost use Rattle.walk.specs.Stopped.{Waiting};
ghost use Rattle.walk.specs.declared.operation.Operation.TheVariants.{Write};
ghost use Rattle.walk.specs.Operation.{operation_of};
ghost use Rattle.change.specs.Last.{last_reason};
ghost use Rattle.change.specs.Work.{judged};
ghost use Rattle.change.specs.Single.{single_entries, FewKeys, in_range, Named, LeafWritten, Singly, WorksSingly};

use crate::last::one_reason;
use crate::leaf::Changed;
use crate::work::{moves, to_leaf};
use nodes::node::Node;
use walk::lookup::answers;
use walk::operation::Update;
use walk::walk::{Answer, Stop, node_number};

// The node that is written, and the number of its object.
#[derive(Clone, Copy)]
pub struct OneWrite {
    pub number: u64,
    pub node: Node,
}

// An operation's answer with the one write, if there is one.
#[derive(Clone, Copy)]
pub struct Single {
    pub answer: Answer,
    pub write: Option<OneWrite>,
}

// Is a leaf of so many keys written as it is? The root's level is `top`.
fn in_range(top: usize, count: usize) -> bool
    ensures { result ≡ in_range top count }
{
    count <= 14 && (top == 0 || 7 <= count)
}

// The leaf is written, if that is all: None where there is more to write.
fn write_leaf(
    part: &[u8],
    used: &mut [u64],
    change: Option<Changed>,
) -> Result<Option<Single>, Stop>
    requires noted { Noted (held part.now) used.old × ClientPart part.now }
    requires named { Named change }
    ensures { LeafWritten part.now used.old change result used.new }
{
    match change {
        None => {
            let answer = answers(part, used, Answer { a: 0, b: 0 })?;
            Ok(Some(Single {
                answer,
                write: None,
            }))
        }
        Some(c) => {
            if !in_range(c.way.top, c.content.count) {
                return Ok(None);
            }
            let answer = answers(part, used, Answer { a: c.a, b: 0 })?;
            let number = node_number(c.way.name);
            let node = c.content.node().with_version(0);
            Ok(Some(Single {
                answer,
                write: Some(OneWrite { number, node }),
            }))
        }
    }
}

// Before the last questions. A move is never one write.
fn walk(part: &[u8], slots: usize, used: &mut [u64], op: Update) -> Result<Option<Single>, Stop>
    requires walking { Walking part.now used.old }
    requires waits { operation_of (held part.now op_number) ≡ Write op }
    ensures { Singly slots (held part.now) used.old result used.new }
{
    if moves(op) {
        return Ok(None);
    }
    let change = to_leaf(part, slots, used, op)?;
    write_leaf(part, used, change)
}

// The last questions about what is written.
fn single_reason(part: &[u8], write: Option<OneWrite>) -> Result<(), Stop>
    requires { FewKeys write × (held part.now writes_count ≤ limit Writes) × ClientPart part.now }
    ensures { course result ≡ judged Going (last_reason (held part.now) (single_entries write)) }
{
    match write {
        None => Ok(()),
        Some(w) => one_reason(part, w.number, w.node),
    }
}

// The whole work step: None where more is to be written. The list is lent empty; it has the copies in use afterwards.
pub fn write_single(
    part: &[u8],
    slots: usize,
    used: &mut [u64],
    op: Update,
) -> Result<Option<Single>, Stop>
    requires used_room_in_bounds { (used_room ≤ length used.old) × (get_or used.old 0 0 ≡ 0) × ClientPart part.now }
    requires waits { Waiting (held part.now) × (operation_of (held part.now op_number) ≡ Write op) }
    ensures { WorksSingly slots (held part.now) result used.old used.new }
{
    match walk(part, slots, used, op)? {
        None => Ok(None),
        Some(s) => {
            single_reason(part, s.write)?;
            Ok(Some(s))
        }
    }
}
