// Lookup, and how every operation answers.
ghost use Rattle.std.specs.Prelude.{◌≡◌, [], ◌≤◌};
ghost use Rattle.operations.specs.Look.{lookup_plan};
ghost use Rattle.client.specs.Sets.{held};
ghost use Rattle.memory.specs.Word.{view};
ghost use Rattle.nodes.specs.Stored.{node_at};
ghost use Rattle.walk.specs.Walk.{answer_course};
ghost use Rattle.walk.specs.Ask.{Noted, InPart, Walking};
ghost use Rattle.walk.specs.Lookup.{Ends, Walks, look_in};
ghost use Rattle.client.specs.Layout.{ClientPart};
ghost use Rattle.client.specs.Bounds.{most_keys};

use crate::down::to_leaf;
use crate::walk::{Answer, Stop, over, pop_used};
use nodes::standing::{place_at, slot_at};

// The answer, unless object 97 has been read.
pub fn answers(part: &[u8], used: &mut [u64], answer: Answer) -> Result<Answer, Stop>
    requires { Noted (held part.now) used.old × ClientPart part.now }
    ensures { Ends (held part.now) used.old answer.a answer.b (answer_course result) used.new }
{
    if over(part, used) {
        pop_used(used);
        return Err(Stop::Aborts(4));
    }
    Ok(answer)
}

// "Lookup of a key there: a 1, b the value."
fn look_in(part: &[u8], leaf: usize, key: u64) -> Answer
    requires { ((node_at (view part.now) leaf).count ≤ most_keys) × InPart leaf × ClientPart part.now }
    ensures { result ≡ look_in (node_at (view part.now) leaf) key }
{
    let p = place_at(part, leaf, key);
    if p.there {
        return Answer {
            a: 1,
            b: slot_at(part, leaf, p.place - 1),
        };
    }
    Answer { a: 0, b: 0 }
}

pub fn lookup(part: &[u8], slots: usize, used: &mut [u64], key: u64) -> Result<Answer, Stop>
    requires { Walking part.now used.old }
    ensures { Walks slots (held part.now) used.old (lookup_plan key) (answer_course result) used.new [] }
{
    let leaf = to_leaf(part, slots, used, key)?;
    answers(part, used, look_in(part, leaf, key))
}
