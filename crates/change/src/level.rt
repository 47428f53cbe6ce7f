// One level of a change: a node whose new content is in range is written, one of 15 keys splits, one of 6 turns to a neighbour.
ghost use Rattle.std.specs.Prelude.{◌≡◌, true, ◌<◌, ◌≤◌};
ghost use Rattle.nodes.specs.Entries.{wide_entries};
ghost use Rattle.client.specs.Record.{in_store};
ghost use Rattle.client.specs.Sets.{held};
ghost use Rattle.client.specs.Lent.{own_count};
ghost use Rattle.client.specs.Bounds.{end_of_names, own_most, most_keys, highest_level, risen_most};
ghost use Rattle.walk.specs.Walk.{answer_course};
ghost use Rattle.walk.specs.Ask.{OwnGood, Noted, Rising};
ghost use Rattle.change.specs.Rise.{Content, Under, Raises, Closes, no_pairs};
ghost use Rattle.change.specs.Level.{level_plan, top_plan, Settles};
ghost use Rattle.client.specs.Layout.{ClientPart};

use crate::grow::split_root;
use crate::neighbour::neighbour;
use crate::rise::{Risen, write_node};
use crate::split::split;
use nodes::change::Wide;
use walk::down::Turn;
use walk::lookup::answers;
use walk::walk::{Answer, Stop};

// A node is written, and the operation answered.
fn settle(
    part: &[u8],
    own: &mut [u64],
    used: &mut [u64],
    name: u64,
    n: Wide,
    answer: Answer,
) -> Result<Answer, Stop>
    requires name_lt_end_of_names { (name < end_of_names) × OwnGood own.old × (own_count own.old < own_most) × (n.count ≤ most_keys) }
    requires noted { Noted (held part.now) used.old × ClientPart part.now }
    ensures { Settles part own used name n answer.a answer.b (answer_course result) }
{
    write_node(own, name, n.node());
    answers(part, used, answer)
}

// Below the root; `root` says that the parent is the root.
pub fn raise(
    part: &[u8],
    slots: usize,
    own: &mut [u64],
    used: &mut [u64],
    level: usize,
    root: bool,
    above: Turn,
    name: u64,
    n: Wide,
    answer: Answer,
) -> Result<Risen, Stop>
    requires rising { Rising part.now own.old used.old risen_most }
    requires under { Under slots level name above }
    requires content { Content level n }
    ensures { Raises slots part own used level root (level_plan slots (no_pairs answer) level above name (wide_entries n)) result }
{
    if n.count == 15 {
        let up = split(part, slots, own, used, level, above, name, n)?;
        return Ok(Risen::Up(up));
    }
    if n.count < 7 {
        return neighbour(
            part,
            slots,
            own,
            used,
            level,
            root,
            above,
            name,
            n.node(),
            answer,
        );
    }
    let end = settle(part, own, used, name, n, answer)?;
    Ok(Risen::Done(end))
}

// The root.
pub fn at_top(
    part: &[u8],
    slots: usize,
    own: &mut [u64],
    used: &mut [u64],
    level: usize,
    name: u64,
    n: Wide,
    answer: Answer,
) -> Result<Answer, Stop>
    requires rising { Rising part.now own.old used.old risen_most }
    requires there { in_store slots name ≡ true }
    requires content { Content level n }
    requires low { level ≤ highest_level }
    ensures { Closes slots part own used (top_plan slots (no_pairs answer) level name (wide_entries n 0)) (answer_course result) }
{
    if n.count == 15 {
        return split_root(part, slots, own, used, level, name, n, answer);
    }
    settle(part, own, used, name, n, answer)
}
