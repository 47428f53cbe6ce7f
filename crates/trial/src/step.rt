// Steps as a schedule draws them: their kinds and operations by name.
use steps::step::Step;

// The kinds, in the order of their numbers from 0.
#[derive(Clone, Copy, PartialEq, Eq)]
pub enum Kind {
    Begin,
    Give,
    Work,
    Commit,
    Prepare,
    Apply,
    GiveUp,
    Lost,
    Add,
    Close,
    Remove,
}

// The operations, by their numbers.
#[derive(Clone, Copy, PartialEq, Eq)]
pub enum Operation {
    Insert = 1,
    Lookup = 2,
    Delete = 3,
    Next = 4,
    Previous = 5,
    Migrate = 6,
    List = 7,
}

impl Operation {
    // The operation of a number, if there is one.
    pub fn numbered(number: u64) -> Option<Operation> {
        match number {
            1 => Some(Operation::Insert),
            2 => Some(Operation::Lookup),
            3 => Some(Operation::Delete),
            4 => Some(Operation::Next),
            5 => Some(Operation::Previous),
            6 => Some(Operation::Migrate),
            7 => Some(Operation::List),
            _ => None,
        }
    }
}

// A step of a kind, whose other fields are 0.
pub fn plain(kind: Kind, client: usize) -> Step {
    Step {
        kind: kind as u64,
        client: client as u64,
        op: 0,
        key: 0,
        value: 0,
        server: 0,
    }
}

// The same, at a server.
pub fn at_server(kind: Kind, client: usize, server: u64) -> Step {
    Step {
        server,
        ..plain(kind, client)
    }
}

// An operation is given.
pub fn give(client: usize, operation: Operation, key: u64, value: u64, server: u64) -> Step {
    Step {
        op: operation as u64,
        key,
        value,
        server,
        ..plain(Kind::Give, client)
    }
}

pub fn is_of(step: Step, kind: Kind) -> bool {
    step.kind == kind as u64
}
