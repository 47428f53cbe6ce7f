// What a step is.
ghost use Rattle.std.specs.Prelude.{◌≡◌};
ghost use Rattle.steps.specs.Refusal.{kind_of};

// "A step has six fields: kind, client, op, key, value, server." Six words in a row, so that programs in C can pass a list of them.
#[repr(C)]
#[derive(Clone, Copy)]
pub struct Step {
    pub kind: u64,
    pub client: u64,
    pub op: u64,
    pub key: u64,
    pub value: u64,
    pub server: u64,
}

// "Kind 8 adds an absent server, 9 closes an open one to new nodes, 10 removes a closing one."
#[derive(Clone, Copy)]
pub enum ServerChange {
    Add,
    Close,
    Remove,
}

// "Kinds: 0 begin. 1 give an operation .. 2 work. 3 commit. 4 prepare at a server. 5 apply at a server. 6 give up.
// 7 client lost." And the changes of the servers. Unknown is a kind of its own, and no error, since `kind_of` and the rules by kind are total.
#[derive(Clone, Copy)]
pub enum Kind {
    Begin,
    Give,
    Work,
    Commit,
    Prepare,
    Apply,
    GiveUp,
    Lost,
    Servers(ServerChange),
    Unknown,
}

// By its number.
impl From<u64> for Kind {
    ghost from_gives = { λ number kind. kind ≡ kind_of number };

    #[tactic(auto, using(crate::proofs::Laws::Refusal::unknown_kind), unfolding(crate::specs::Refusal::kind_of))]
    fn from(number: u64) -> Kind {
        match number {
            0 => Kind::Begin,
            1 => Kind::Give,
            2 => Kind::Work,
            3 => Kind::Commit,
            4 => Kind::Prepare,
            5 => Kind::Apply,
            6 => Kind::GiveUp,
            7 => Kind::Lost,
            8 => Kind::Servers(ServerChange::Add),
            9 => Kind::Servers(ServerChange::Close),
            10 => Kind::Servers(ServerChange::Remove),
            11..=u64::MAX => Kind::Unknown,
        }
    }
}
