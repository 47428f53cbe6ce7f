// "Steps refused": 1 to 9, 11 and 13 to 15. "A refused step returns the first number that holds and changes no byte".
ghost use Rattle.std.specs.Prelude.{◌≡◌, ◌<◌, length};
ghost use Rattle.memory.specs.Word.{view};
ghost use Rattle.client.specs.Sets.{held};
ghost use Rattle.steps.specs.Refusal.{open_refusal, refusal, state_fits};
ghost use Rattle.steps.specs.Refused.{refused_by};
ghost use Rattle.kinds.specs.Parts.{StoreIn, AtServer, stored_in};
ghost use Rattle.kinds.specs.Refusal.{server_refusal, node_refusal, count_refusal, first_refusal, give_refusal, field_refusal, known_refusal};
ghost use Rattle.kinds.specs.Refusal.{left, due, fitting, unfit, taken_yet, change_refusal, Sited};
ghost use Rattle.client.specs.Layout.{ClientPart, field, field_count};
ghost use Rattle.client.specs.Bounds.{most_servers};

use crate::servers::{any_taken, is_quiet, state_suits, version_ends};
use crate::sizes::{allowed, between};
use crate::whole::{client_part, words_for};
use client::part::{
    APPLIED, COMMITTING, DECIDED, MOST_LISTED, NO_TRANSACTION, OP_NUMBER, OPEN, PARTICIPANTS,
    PHASE, PREPARED, get_field,
};
use memory::bits;
use nodes::name::{Name, in_store};
use steps::refusal::Refusal;
use steps::sizes::Sizes;
use steps::step::{Kind, ServerChange, Step};

// 1 to 3: the memory of so many bytes, for the sizes given or in the head.
pub fn memory_refusal(bytes: usize, sizes: Sizes) -> Result<(), Refusal>
    ensures { refused_by result ≡ open_refusal bytes sizes }
{
    if bytes < 64 {
        return Err(Refusal::NoHead);
    }
    if !allowed(sizes) {
        return Err(Refusal::BadSizes);
    }
    if bytes < 8 * words_for(sizes) {
        return Err(Refusal::TooShort);
    }
    Ok(())
}

// 7: "The server of a migrate, prepare or apply is not in the store."
fn server_refusal(server: u64) -> Result<(), Refusal>
    ensures { refused_by result ≡ server_refusal server }
{
    if server >= Name::SERVERS {
        return Err(Refusal::UnknownServer);
    }
    Ok(())
}

// 8: "A migrated node's name is not in the store."
fn node_refusal(sizes: Sizes, name: u64) -> Result<(), Refusal>
    ensures { refused_by result ≡ node_refusal sizes name }
{
    if in_store(sizes.slots, name) {
        return Ok(());
    }
    Err(Refusal::UnknownNode)
}

// 11: "count outside 1 to 32".
fn count_refusal(count: u64) -> Result<(), Refusal>
    ensures { refused_by result ≡ count_refusal count }
{
    if between(1, MOST_LISTED, count) {
        return Ok(());
    }
    Err(Refusal::BadCount)
}

// 7 and then 8, of a migrate.
fn migrate_refusal(sizes: Sizes, step: Step) -> Result<(), Refusal>
    ensures { refused_by result ≡ first_refusal (server_refusal step.server) (node_refusal sizes step.key) }
{
    server_refusal(step.server)?;
    node_refusal(sizes, step.key)
}

// 6: "A given op is not 1 to 6", and "Operations now run to 7"; of a migrate 7 and 8, of a list 11.
fn give_refusal(sizes: Sizes, step: Step) -> Result<(), Refusal>
    ensures { refused_by result ≡ give_refusal sizes step }
{
    let op = step.op;
    match op {
        0 => Err(Refusal::UnknownOperation),
        1..=5 => Ok(()),
        6 => migrate_refusal(sizes, step),
        7 => count_refusal(step.value),
        8..=u64::MAX => Err(Refusal::UnknownOperation),
    }
}

// Is a server a participant that is not in the set of the field `done` yet?
fn is_unfinished(part: &[u8], done: usize, server: u64) -> bool
    requires { (server < most_servers) × (done < field_count) × ClientPart part.now }
    ensures { result ≡ left (held part.now) (field done) server }
{
    let s = server as u32;
    if bits::has(get_field(part, PARTICIPANTS), s) {
        return !bits::has(get_field(part, done), s);
    }
    false
}

// Is a prepare or an apply still to come at the server?
#[tactic(auto, using(crate::specs::Laws::Refusal::kind_due, crate::specs::Laws::Refusal::prepare_sited, crate::specs::Laws::Refusal::apply_sited), unfolding(crate::specs::Refusal::due))]
fn is_due(part: &[u8], kind: Kind, server: u64) -> bool
    requires { Sited kind server × ClientPart part.now }
    ensures { result ≡ due (held part.now) server kind }
{
    match kind {
        Kind::Begin => false,
        Kind::Give => false,
        Kind::Work => false,
        Kind::Commit => false,
        Kind::Prepare => is_unfinished(part, PREPARED, server),
        Kind::Apply => is_unfinished(part, APPLIED, server),
        Kind::GiveUp => false,
        Kind::Lost => false,
        Kind::Servers(_) => false,
        Kind::Unknown => false,
    }
}

// 9: does the state fit? op is the number of the operation that waits.
#[tactic(auto, using(crate::specs::Laws::Refusal::kind_fitting, crate::specs::Laws::Refusal::tests), unfolding(crate::specs::Refusal::fitting))]
fn is_fitting(kind: Kind, phase: u64, op: u64, due: bool) -> bool
    ensures { result ≡ fitting kind phase op due }
{
    match kind {
        Kind::Begin => phase == NO_TRANSACTION,
        Kind::Give => phase == OPEN && op == 0,
        Kind::Work => phase == OPEN && op != 0,
        Kind::Commit => phase == OPEN && op == 0,
        Kind::Prepare => phase == COMMITTING && due,
        Kind::Apply => phase == DECIDED && due,
        Kind::GiveUp => between(OPEN, COMMITTING, phase),
        Kind::Lost => true,
        Kind::Servers(_) => true,
        Kind::Unknown => true,
    }
}

// 9 in the client's part.
fn state_fits(part: &[u8], kind: Kind, server: u64) -> bool
    requires { Sited kind server × ClientPart part.now }
    ensures { result ≡ state_fits (held part.now) server kind }
{
    let phase = get_field(part, PHASE);
    let op = get_field(part, OP_NUMBER);
    let due = is_due(part, kind, server);
    is_fitting(kind, phase, op, due)
}

// 9 for the client's part of the whole memory.
fn client_is_unfit(mem: &[u8], sizes: Sizes, step: Step, kind: Kind) -> bool
    requires { StoreIn sizes (length mem.now) × (step.client < sizes.clients) × Sited kind step.server }
    ensures { result ≡ unfit sizes step kind (view mem.now) }
{
    !state_fits(
        client_part(mem, sizes, step.client as usize),
        kind,
        step.server,
    )
}

// 6 to 8 and 11: what the kind asks of the step's fields.
#[tactic(auto, using(crate::specs::Laws::Refusal::kind_fields), unfolding(crate::specs::Refusal::field_refusal))]
fn field_refusal(sizes: Sizes, step: Step, kind: Kind) -> Result<(), Refusal>
    ensures { refused_by result ≡ field_refusal sizes step kind }
{
    match kind {
        Kind::Begin => Ok(()),
        Kind::Give => give_refusal(sizes, step),
        Kind::Work => Ok(()),
        Kind::Commit => Ok(()),
        Kind::Prepare => server_refusal(step.server),
        Kind::Apply => server_refusal(step.server),
        Kind::GiveUp => Ok(()),
        Kind::Lost => Ok(()),
        Kind::Servers(_) => Ok(()),
        Kind::Unknown => Ok(()),
    }
}

// 5 to 9 and 11, of a kind from 0 to 7.
fn known_refusal(mem: &[u8], sizes: Sizes, step: Step, kind: Kind) -> Result<(), Refusal>
    requires { StoreIn sizes (length mem.now) }
    ensures { refused_by result ≡ known_refusal sizes step kind (view mem.now) }
{
    if step.client >= sizes.clients as u64 {
        return Err(Refusal::UnknownClient);
    }
    field_refusal(sizes, step, kind)?;
    if client_is_unfit(mem, sizes, step, kind) {
        return Err(Refusal::Unfit);
    }
    Ok(())
}

// 14: "removal with a slot still taken".
#[tactic(auto, using(crate::specs::Laws::Refusal::not_removed), unfolding(crate::specs::Refusal::taken_yet))]
fn is_taken_yet(mem: &[u8], sizes: Sizes, change: ServerChange, server: usize) -> bool
    requires { AtServer sizes (length mem.now) server }
    ensures { result ≡ taken_yet (stored_in sizes (view mem.now)) change server }
{
    match change {
        ServerChange::Add => false,
        ServerChange::Close => false,
        ServerChange::Remove => any_taken(mem, sizes, server),
    }
}

// 7, 13 to 15 and 9, of a change of the servers.
fn change_refusal(
    mem: &[u8],
    sizes: Sizes,
    change: ServerChange,
    server: u64,
) -> Result<(), Refusal>
    requires { StoreIn sizes (length mem.now) }
    ensures { refused_by result ≡ change_refusal sizes change server (stored_in sizes (view mem.now)) }
{
    if server >= Name::SERVERS {
        return Err(Refusal::UnknownServer);
    }
    if !state_suits(mem, sizes, change, server as usize) {
        return Err(Refusal::UnfitServer);
    }
    if is_taken_yet(mem, sizes, change, server as usize) {
        return Err(Refusal::SlotTaken);
    }
    if version_ends(mem, sizes) {
        return Err(Refusal::LastMetadata);
    }
    if is_quiet(mem, sizes) {
        return Ok(());
    }
    Err(Refusal::Unfit)
}

// 4: "The kind is above 7.", and now above 10; 5 to 9, 11 and 13 to 15.
#[tactic(auto, using(crate::specs::Laws::Refusal::kind_known, crate::specs::Laws::Refusal::kind_changes, crate::specs::Laws::Refusal::kind_above), unfolding(steps::specs::Servers::change_of))]
pub fn refusal(mem: &[u8], sizes: Sizes, step: Step) -> Result<(), Refusal>
    requires { StoreIn sizes (length mem.now) }
    ensures { refused_by result ≡ refusal sizes step (stored_in sizes (view mem.now)) }
{
    let number = step.kind;
    match number {
        0..=7 => known_refusal(mem, sizes, step, Kind::from(number)),
        8 => change_refusal(mem, sizes, ServerChange::Add, step.server),
        9 => change_refusal(mem, sizes, ServerChange::Close, step.server),
        10 => change_refusal(mem, sizes, ServerChange::Remove, step.server),
        11..=u64::MAX => Err(Refusal::UnknownKind),
    }
}
