// The operations, by their numbers.
ghost use Rattle.std.specs.Prelude.{◌≡◌};
ghost use Rattle.client.specs.Layout.{op_number, ClientPart};
ghost use Rattle.client.specs.Sets.{held};
ghost use Rattle.walk.specs.Operation.{operation_of};

use client::part::{OP_NUMBER, get_field};

// Operations that only read, and answer with a and b.
#[derive(Clone, Copy)]
pub enum Query {
    Lookup,
    Next,
    Previous,
}

// Operations that may write.
#[derive(Clone, Copy)]
pub enum Update {
    Insert,
    Delete,
    Migrate,
}

#[derive(Clone, Copy)]
pub enum Operation {
    Read(Query),
    Listing,
    Write(Update),
    Unknown,
}

// "op 1 insert, 2 lookup, 3 delete, 4 next key above, 5 previous key below, 6 migrate", and 7 list
impl From<u64> for Operation {
    ghost from_gives = { λ number op. op ≡ operation_of number };

    #[tactic(auto, using(crate::specs::Laws::Operation::of_none), unfolding(crate::specs::Operation::operation_of))]
    fn from(number: u64) -> Operation {
        match number {
            0 => Operation::Unknown,
            1 => Operation::Write(Update::Insert),
            2 => Operation::Read(Query::Lookup),
            3 => Operation::Write(Update::Delete),
            4 => Operation::Read(Query::Next),
            5 => Operation::Read(Query::Previous),
            6 => Operation::Write(Update::Migrate),
            7 => Operation::Listing,
            8..=u64::MAX => Operation::Unknown,
        }
    }
}

// The operation that waits.
pub fn waiting(part: &[u8]) -> Operation
    requires { ClientPart part.now }
    ensures { result ≡ operation_of (held part.now op_number) }
{
    Operation::from(get_field(part, OP_NUMBER))
}
