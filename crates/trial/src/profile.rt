// What a random schedule is like.
use crate::step::Operation;

// How often each operation is drawn.
#[derive(Clone, Copy)]
pub struct Mix {
    shares: [(Operation, u8); 7],
}

// A store, its clients and keys, and what a schedule does with them.
#[derive(Clone, Copy)]
pub struct Profile {
    pub name: &'static str,
    pub servers: u64,
    pub slots: u64,
    pub clients: u64,
    // these many clients act most of the time; the others seldom, with old copies
    pub awake: u64,
    // keys are drawn below this number
    pub keys: u64,
    // these many are inserted at first, by one client alone, in rising order
    pub prefill: u64,
    // a transaction has at most this many operations
    pub ops: u64,
    // the two mixes take turns
    pub grow: Mix,
    pub shrink: Mix,
    pub period: u64,
    // times in ten thousand: the same client goes on, also one with a prepare or an apply due; keys of a narrow range are drawn; a
    // due prepare or apply is left for later; a transaction is given up; a client is lost; a server is added, closed or removed; a step is
    // arbitrary, or is lent an output that no list fits in
    pub sticks: u64,
    pub finishes: u64,
    pub narrow: u64,
    pub late: u64,
    pub gives_up: u64,
    pub loses: u64,
    pub changes: u64,
    pub noise: u64,
    // arbitrary steps are of kinds below this number: below 8 where the servers are to stay as they were opened
    pub kinds: u64,
    // steps of the schedule, before all is settled and read once more
    pub steps: u64,
}

impl Mix {
    fn of(insert: u8, lookup: u8, delete: u8, others: u8, migrate: u8) -> Mix {
        Mix {
            shares: [
                (Operation::Insert, insert),
                (Operation::Lookup, lookup),
                (Operation::Delete, delete),
                (Operation::Next, others),
                (Operation::Previous, others),
                (Operation::Migrate, migrate),
                (Operation::List, others),
            ],
        }
    }

    // All shares.
    pub fn total(self) -> u64 {
        let mut sum: u64 = 0;
        for (_, share) in self.shares {
            sum = sum.wrapping_add(share as u64);
        }
        sum
    }

    // The operation at a place among all shares.
    pub fn at(self, place: u64) -> Operation {
        let mut left = place;
        for (operation, share) in self.shares {
            if left < (share as u64) {
                return operation;
            }
            left -= share as u64;
        }
        Operation::List
    }
}

// Many clients that meet at few leaves.
fn hot() -> Profile {
    Profile {
        name: "hot",
        servers: 4,
        slots: 24,
        clients: 12,
        awake: 12,
        keys: 60,
        prefill: 0,
        ops: 3,
        grow: Mix::of(4, 2, 3, 1, 0),
        shrink: Mix::of(3, 2, 4, 1, 0),
        period: 2000,
        sticks: 4000,
        finishes: 6000,
        narrow: 0,
        late: 3000,
        gives_up: 30,
        loses: 20,
        changes: 0,
        noise: 100,
        kinds: 8,
        steps: 70000,
    }
}

// A root that splits and collapses.
fn edge() -> Profile {
    Profile {
        name: "edge",
        servers: 2,
        slots: 10,
        clients: 4,
        awake: 4,
        keys: 40,
        ops: 6,
        grow: Mix::of(6, 1, 3, 1, 1),
        shrink: Mix::of(2, 1, 7, 1, 1),
        period: 600,
        ..hot()
    }
}

// Contention on a tree of two inner levels.
fn wide() -> Profile {
    Profile {
        name: "wide",
        servers: 3,
        slots: 80,
        clients: 8,
        awake: 8,
        keys: 500,
        prefill: 300,
        ops: 4,
        grow: Mix::of(8, 1, 2, 1, 1),
        shrink: Mix::of(2, 1, 8, 1, 1),
        period: 5000,
        sticks: 7000,
        late: 500,
        finishes: 9000,
        ..hot()
    }
}

// A tree that reaches level 3 and is taken down again, in narrow ranges.
fn deep() -> Profile {
    Profile {
        name: "deep",
        servers: 4,
        slots: 120,
        clients: 3,
        awake: 3,
        keys: 1500,
        prefill: 1300,
        ops: 8,
        grow: Mix::of(8, 1, 2, 1, 1),
        shrink: Mix::of(1, 1, 14, 1, 1),
        period: 12000,
        sticks: 9700,
        narrow: 8000,
        late: 100,
        gives_up: 3,
        loses: 2,
        noise: 10,
        finishes: 9950,
        ..hot()
    }
}

// Few slots: the store is full.
fn full() -> Profile {
    Profile {
        name: "full",
        slots: 5,
        keys: 120,
        ops: 4,
        grow: Mix::of(8, 1, 3, 1, 2),
        shrink: Mix::of(3, 1, 6, 1, 2),
        period: 3000,
        ..edge()
    }
}

// Leaves, inner nodes and the root move.
fn moving() -> Profile {
    Profile {
        name: "moving",
        servers: 8,
        slots: 20,
        clients: 6,
        awake: 6,
        keys: 250,
        prefill: 120,
        grow: Mix::of(3, 2, 2, 1, 8),
        shrink: Mix::of(2, 2, 3, 1, 8),
        sticks: 7500,
        late: 300,
        finishes: 9500,
        ..hot()
    }
}

// Transactions that reach the limits of reads and writes.
fn limits() -> Profile {
    Profile {
        name: "limits",
        slots: 150,
        clients: 2,
        awake: 2,
        keys: 1200,
        prefill: 900,
        ops: 200,
        grow: Mix::of(3, 4, 3, 1, 0),
        shrink: Mix::of(1, 8, 1, 1, 0),
        period: 6000,
        sticks: 9900,
        narrow: 0,
        ..deep()
    }
}

// Prepares and applies that come late, in any order.
fn late() -> Profile {
    Profile {
        name: "late",
        servers: 6,
        slots: 60,
        clients: 14,
        awake: 14,
        keys: 400,
        prefill: 250,
        grow: Mix::of(5, 2, 4, 1, 2),
        shrink: Mix::of(4, 2, 5, 1, 2),
        sticks: 3000,
        late: 8500,
        finishes: 1000,
        ..hot()
    }
}

// Clients that sleep, and go on with old copies.
fn stale() -> Profile {
    Profile {
        name: "stale",
        servers: 4,
        slots: 60,
        awake: 4,
        keys: 300,
        prefill: 150,
        grow: Mix::of(8, 1, 2, 1, 2),
        shrink: Mix::of(2, 1, 9, 1, 2),
        narrow: 3000,
        finishes: 9000,
        ..wide()
    }
}

// Losses and give-ups at any point.
fn lossy() -> Profile {
    Profile {
        name: "lossy",
        late: 5000,
        gives_up: 500,
        loses: 300,
        noise: 500,
        finishes: 4000,
        ..late()
    }
}

// Arbitrary steps.
fn noise() -> Profile {
    Profile {
        name: "noise",
        servers: 3,
        slots: 12,
        noise: 5000,
        kinds: 12,
        ..edge()
    }
}

// The largest store.
fn large() -> Profile {
    Profile {
        name: "large",
        servers: 8,
        slots: 1024,
        clients: 16,
        awake: 10,
        keys: 1600,
        prefill: 600,
        period: 20000,
        narrow: 5000,
        ..wide()
    }
}

// One server.
fn alone() -> Profile {
    Profile {
        name: "alone",
        servers: 1,
        slots: 200,
        clients: 5,
        awake: 5,
        ..wide()
    }
}

// Few slots between which inner nodes go to and fro, while others have old copies of them.
fn pingpong() -> Profile {
    Profile {
        name: "pingpong",
        servers: 2,
        slots: 16,
        clients: 5,
        awake: 2,
        keys: 150,
        prefill: 80,
        ..moving()
    }
}

// Servers that come and go. The nodes are few and move, so that a closed server is soon empty and can be removed.
fn servers() -> Profile {
    Profile {
        name: "servers",
        servers: 3,
        slots: 3,
        awake: 4,
        keys: 60,
        prefill: 30,
        late: 1000,
        changes: 1000,
        kinds: 12,
        ..moving()
    }
}

// All profiles.
pub fn all() -> [Profile; 15] {
    [
        hot(),
        edge(),
        wide(),
        deep(),
        full(),
        moving(),
        limits(),
        late(),
        stale(),
        lossy(),
        noise(),
        large(),
        alone(),
        pingpong(),
        servers(),
    ]
}

impl Profile {
    // The same store and keys, with one client, nothing late, nothing lost and no change of the servers.
    pub fn calm(self) -> Profile {
        Profile {
            awake: 1,
            clients: 1,
            ops: 10,
            sticks: 10000,
            finishes: 10000,
            late: 0,
            gives_up: 0,
            loses: 0,
            changes: 0,
            noise: 0,
            ..self
        }
    }
}
