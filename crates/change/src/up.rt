// The new content of a leaf, carried up "level by level from the lowest".
ghost use Rattle.walk.specs.Walk.{answer_course};
ghost use Rattle.walk.specs.Ask.{Beginning};
ghost use Rattle.change.specs.Operated.{Operates};
ghost use Rattle.change.specs.Rise.{no_pairs};
ghost use Rattle.change.specs.Up.{Ready, rise_plan};
ghost use Rattle.change.specs.Leaf.{LeafReady, CarriesUp};

use crate::leaf::Changed;
use crate::level::{at_top, raise};
use crate::rise::Risen;
use nodes::change::Wide;
use walk::down::{Turn, turns};
use walk::lookup::answers;
use walk::walk::{Answer, Stop};

fn rise(
    part: &[u8],
    slots: usize,
    own: &mut [u64],
    used: &mut [u64],
    top: usize,
    path: [Turn; 5],
    leaf: u64,
    content: Wide,
    answer: Answer,
) -> Result<Answer, Stop>
    requires beginning { Beginning part.now own.old used.old }
    requires ready { Ready slots top path leaf content }
    ensures { Operates slots part own used (rise_plan slots (no_pairs answer) top path leaf content) (answer_course result) }
{
    let mut name = leaf;
    let mut n = content;
    for level in 0..top {
        let above = path[level + 1];
        let root = level + 1 == top;
        match raise(part, slots, own, used, level, root, above, name, n, answer)? {
            Risen::Done(end) => return Ok(end),
            Risen::Up(up) => {
                name = above.name;
                n = up;
            }
        }
    }
    at_top(part, slots, own, used, top, name, n, answer)
}

// From the leaf on: its path is taken out of the part. Where no leaf changes, the answer is 0.
pub fn carry_up(
    part: &[u8],
    slots: usize,
    own: &mut [u64],
    used: &mut [u64],
    change: Option<Changed>,
) -> Result<Answer, Stop>
    requires beginning { Beginning part.now own.old used.old }
    requires ready { LeafReady slots part.now change }
    ensures { CarriesUp slots part own used change (answer_course result) }
{
    match change {
        None => answers(part, used, Answer { a: 0, b: 0 }),
        Some(c) => {
            let path = turns(part, c.way.path);
            let answer = Answer { a: c.a, b: 0 };
            rise(
                part, slots, own, used, c.way.top, path, c.way.name, c.content, answer,
            )
        }
    }
}
