// Leaves in a row: "next and previous, if the leaf has none, go on down the nearest branch on that side".
ghost use Rattle.std.specs.Prelude.{◌≡◌, ◌+◌, ◌<◌, ◌≤◌, length, get_or, set, IfSome, IfOk};
ghost use Rattle.client.specs.Sets.{held};
ghost use Rattle.memory.specs.Word.{view};
ghost use Rattle.nodes.specs.Stored.{node_at};
ghost use Rattle.client.specs.Layout.{ClientPart};
ghost use Rattle.walk.specs.Walk.{answer_course};
ghost use Rattle.walk.specs.Ask.{InPart, Noted, Walking, lent_node};
ghost use Rattle.walk.specs.Found.{pairs_in, Roomy, search_plan, LeafAt, lent_pairs, left_pairs, left_told};
ghost use Rattle.walk.specs.Down.{turns_in, PathInPart};
ghost use Rattle.walk.specs.Seek.{more_with, onward, first_at, Stacked, heading, Climbed, Past, first_child, Standing, Advances, Tells, Afresh, turns_of, headed, heads, ReadsOn, TellsNearest, SeeksOn, SeeksFrom, Searches, Starting};
ghost use Rattle.client.specs.Bounds.{most_keys, highest_level};

use crate::down::{Pass, child, descend, to_leaf};
use crate::found::{Sought, Wish, gather, to_right};
use crate::lookup::answers;
use crate::walk::{Answer, Stop};
use nodes::standing::{count_at, slot_at};

// Is there a child left on that side of child number `at`, of a node with that many keys?
fn more(right: bool, at: usize, count: usize) -> bool
    ensures { result ≡ more_with right at count }
{
    if right {
        return at < count;
    }
    0 < at
}

// The number of the next child on that side.
fn onward(right: bool, at: usize) -> usize
    requires { at ≤ most_keys }
    ensures { result ≡ onward right at }
{
    if right {
        return at + 1;
    }
    if at == 0 {
        return 0;
    }
    at - 1
}

// The first child from that side's other end, of a node with that many keys.
fn first_at(right: bool, count: usize) -> usize
    ensures { result ≡ first_at right count }
{
    if right {
        return 0;
    }
    count
}

// The child to be read next, its name and its level, with the inner nodes above it.
#[derive(Clone, Copy)]
pub struct Ahead {
    pub path: [Pass; 5],
    pub level: usize,
    pub name: u64,
}

// The nearest branch on that side, of the nodes above a level, if there is one.
fn climb(part: &[u8], right: bool, top: usize, path: [Pass; 5], level: usize) -> Option<Ahead>
    requires { Stacked top (turns_in part.now path) level × PathInPart path × ClientPart part.now }
    ensures climbed { Climbed right top (turns_in part.now path) level (heading part.now result) }
    ensures within { IfSome result (λ a. PathInPart a.path) }
{
    for l in level..top {
        let b = path[l + 1];
        if more(right, b.at, count_at(part, b.place)) {
            let at = onward(right, b.at);
            let mut out = path;
            out[l + 1] = Pass { at, ..b };
            return Some(Ahead {
                path: out,
                level: l,
                name: slot_at(part, b.place, at),
            });
        }
    }
    None
}

// On from a leaf: its pairs are gathered, and where they are not enough the nearest branch comes next.
fn past_leaf(
    part: &[u8],
    w: Wish,
    found: &mut [u64],
    top: usize,
    path: [Pass; 5],
    leaf: usize,
) -> Option<Ahead>
    requires stacked { Stacked top (turns_in part.now path) 0 × PathInPart path × InPart leaf × ClientPart part.now }
    requires at { LeafAt (node_at (view part.now) leaf) × Roomy w.wanted found.old }
    ensures past { Past w top (turns_of part path) (lent_node part leaf) (lent_pairs found) (headed part result) (left_pairs found) }
    ensures path { IfSome result (λ a. PathInPart a.path) }
    ensures within { Roomy w.wanted found.new }
{
    gather(part, leaf, w, found);
    if found[0] as usize == w.wanted {
        return None;
    }
    climb(part, to_right(w.sought), top, path, 0)
}

// On from an inner node, which stands at a place: to its first child.
fn to_first(part: &[u8], right: bool, ahead: Ahead, place: usize) -> Ahead
    requires path_in_part { PathInPart ahead.path × InPart place × ClientPart part.now }
    requires at { (0 < ahead.level) × (ahead.level ≤ highest_level) × ((node_at (view part.now) place).count ≤ most_keys) }
    ensures value { heads part result ≡ first_child right (turns_of part ahead.path) ahead.level ahead.name (lent_node part place) }
    ensures within { PathInPart result.path }
{
    let at = first_at(right, count_at(part, place));
    let mut path = ahead.path;
    path[ahead.level] = Pass {
        name: ahead.name,
        at,
        place,
    };
    Ahead {
        path,
        level: ahead.level - 1,
        name: slot_at(part, place, at),
    }
}

// On from a node below the root that was read, and stands at a place.
fn advance(
    part: &[u8],
    w: Wish,
    found: &mut [u64],
    top: usize,
    ahead: Ahead,
    place: usize,
) -> Option<Ahead>
    requires stacked { Stacked top (turns_in part.now ahead.path) ahead.level × PathInPart ahead.path × InPart place × ClientPart part.now }
    requires at { Standing (node_at (view part.now) place) ahead.level top × Roomy w.wanted found.old }
    ensures next { Advances part found w top ahead place result }
    ensures path { IfSome result (λ a. PathInPart a.path) }
    ensures within { Roomy w.wanted found.new }
{
    if ahead.level == 0 {
        return past_leaf(part, w, found, top, ahead.path, place);
    }
    Some(to_first(part, to_right(w.sought), ahead, place))
}

// The child ahead is read: where it leads, unless the pairs wanted are found.
fn read_on(
    part: &[u8],
    slots: usize,
    used: &mut [u64],
    w: Wish,
    found: &mut [u64],
    top: usize,
    ahead: Ahead,
) -> Result<Option<Ahead>, Stop>
    requires walking { Walking part.now used.old × Roomy w.wanted found.old }
    requires at { Stacked top (turns_in part.now ahead.path) ahead.level × (ahead.level < top) × PathInPart ahead.path }
    ensures reads_on { ReadsOn slots part used found w top ahead result }
    ensures path { IfOk result (λ next. IfSome next (λ a. PathInPart a.path)) }
    ensures within { Roomy w.wanted found.new }
{
    let place = child(part, slots, used, ahead.level as u64, ahead.name)?;
    Ok(advance(part, w, found, top, ahead, place))
}

// "Next and previous: a 1, b the nearest key strictly above or below, if any."
fn tell_nearest(part: &[u8], used: &mut [u64], found: &[u64]) -> Result<Answer, Stop>
    requires { Noted (held part.now) used.old × ClientPart part.now × (1 < length found.now) }
    ensures { TellsNearest part used found (answer_course result) }
{
    if found[0] == 0 {
        return answers(part, used, Answer { a: 0, b: 0 });
    }
    answers(part, used, Answer { a: 1, b: found[1] })
}

// The answer by the pairs found; of a list "a is the number of pairs".
fn tell(part: &[u8], used: &mut [u64], w: Wish, found: &[u64]) -> Result<Answer, Stop>
    requires { Noted (held part.now) used.old × ClientPart part.now × Roomy w.wanted found.now }
    ensures { Tells (held part.now) used.old w (pairs_in found.now) (answer_course result) used.new }
{
    match w.sought {
        Sought::Higher | Sought::Lower => tell_nearest(part, used, found),
        Sought::AtLeast => answers(part, used, Answer { a: found[0], b: 0 }),
    }
}

// The leaves on that side of the path, from the child ahead on, until the pairs wanted are found.
fn seek(
    part: &[u8],
    slots: usize,
    used: &mut [u64],
    w: Wish,
    found: &mut [u64],
    top: usize,
    first: Ahead,
) -> Result<Answer, Stop>
    requires walking { Walking part.now used.old × Roomy w.wanted found.old }
    requires at { Stacked top (turns_in part.now first.path) first.level × (first.level < top) × PathInPart first.path }
    ensures seeks_on { SeeksOn slots part used found w top first (answer_course result) }
    ensures within { Roomy w.wanted found.new }
{
    let mut ahead = first;
    while let Some(next) = read_on(part, slots, used, w, found, top, ahead)? {
        ahead = next;
    }
    tell(part, used, w, found)
}

// From a leaf on, with the path to it, until the pairs wanted are found.
fn from_leaf(
    part: &[u8],
    slots: usize,
    used: &mut [u64],
    w: Wish,
    found: &mut [u64],
    top: usize,
    path: [Pass; 5],
    leaf: usize,
) -> Result<Answer, Stop>
    requires walking { Walking part.now used.old × Roomy w.wanted found.old }
    requires at { Stacked top (turns_in part.now path) 0 × PathInPart path × LeafAt (node_at (view part.now) leaf) × InPart leaf }
    ensures seeks_from { SeeksFrom slots part used found w top path leaf (answer_course result) }
    ensures within { Roomy w.wanted found.new }
{
    match past_leaf(part, w, found, top, path, leaf) {
        None => tell(part, used, w, found),
        Some(ahead) => seek(part, slots, used, w, found, top, ahead),
    }
}

// From the leaf of the key on.
pub fn by_path(
    part: &[u8],
    slots: usize,
    used: &mut [u64],
    w: Wish,
    found: &mut [u64],
) -> Result<Answer, Stop>
    requires { Walking part.now used.old × Roomy w.wanted found.old × (get_or found.old 0 0 ≡ 0) }
    ensures searches { Searches slots part used found w (answer_course result) }
    ensures within { Roomy w.wanted found.new }
{
    let d = descend(part, slots, used, w.key)?;
    from_leaf(part, slots, used, w, found, d.top, d.path, d.place)
}

// None is in the lent list any more.
fn empty(list: &mut [u64])
    requires { 0 < length list.old }
    ensures list_after { list.new ≡ set list.old 0 0 }
    ensures none { get_or list.new 0 0 ≡ 0 }
{
    list[0] = 0;
}

// The same from the start: no copy is in use, and no pair found.
fn afresh(
    part: &[u8],
    slots: usize,
    used: &mut [u64],
    w: Wish,
    found: &mut [u64],
) -> Result<Answer, Stop>
    requires { Walking part.now used.old × Roomy w.wanted found.old }
    ensures { Afresh slots (held part.now) (search_plan w) (answer_course result) used.new (left_told w found) }
{
    empty(used);
    empty(found);
    by_path(part, slots, used, w, found)
}

// Next and previous. Nearly always the leaf of the key has the pair. Only where it has none a path is needed, and the walk begins anew with one.
pub fn near(
    part: &[u8],
    slots: usize,
    used: &mut [u64],
    w: Wish,
    found: &mut [u64],
) -> Result<Answer, Stop>
    requires { Starting part.now used.old w found.old }
    ensures { Searches slots part used found w (answer_course result) }
{
    let leaf = to_leaf(part, slots, used, w.key)?;
    gather(part, leaf, w, found);
    if found[0] as usize == w.wanted {
        return tell(part, used, w, found);
    }
    afresh(part, slots, used, w, found)
}
