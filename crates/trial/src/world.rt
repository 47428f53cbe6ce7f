// What is known of a random schedule that runs.
use crate::clients::{Client, Given, Log};
use crate::map::Map;
use crate::step::{Kind, is_of};
use steps::outcome::{Line, Outcome};
use steps::step::Step;

// What the next operation is: drawn; an insert of the next key; or, in the end, a lookup and a next of the last key read. Once the last key has been
// read, the transaction that read it is decided, and all is read.
#[derive(Clone, Copy, PartialEq, Eq)]
pub enum Mode {
    Random,
    Fills,
    Reads,
    Last,
    Read,
}

// What came of the steps, by number, which kinds were done, and what came of the decided transactions.
#[derive(Clone, Copy)]
pub struct Tally {
    pub steps: u64,
    pub outcomes: [u64; 16],
    pub refused: [u64; 16],
    pub reasons: [u64; 16],
    pub done: [u64; 16],
    pub decided: u64,
    pub compared: u64,
    pub wrong: u64,
}

// The clients, the one that acted last, a number above all servers that are or were there, names of nodes fetched lately, and the key that
// was filled in or read last, as it is and as it was when the transaction began.
#[derive(Clone, Copy)]
pub struct World {
    pub clients: [Client; 16],
    pub current: usize,
    pub servers: u64,
    pub names: [u64; 32],
    pub mode: Mode,
    pub cursor: u64,
    pub kept: u64,
    pub tally: Tally,
}

// The number at an index is one more.
fn count(list: &mut [u64; 16], at: u64) {
    if let Some(number) = list.get_mut(at as usize) {
        *number = number.wrapping_add(1);
    }
}

impl Tally {
    pub fn new() -> Tally {
        Tally {
            steps: 0,
            outcomes: [0; 16],
            refused: [0; 16],
            reasons: [0; 16],
            done: [0; 16],
            decided: 0,
            compared: 0,
            wrong: 0,
        }
    }

    // One step more, of this kind.
    fn note(&mut self, kind: u64, outcome: Outcome) {
        self.steps = self.steps.wrapping_add(1);
        count(&mut self.outcomes, Line::from(outcome).outcome);
        match outcome {
            Outcome::Refused(number) => count(&mut self.refused, number),
            Outcome::Aborted(reason) => count(&mut self.reasons, reason),
            Outcome::Done => count(&mut self.done, kind),
            _ => {}
        }
    }

    // A decided transaction, on the map: each answer that it got is compared with the map's.
    fn replay(&mut self, given: &[Given], map: &mut Map) {
        self.decided = self.decided.wrapping_add(1);
        for g in given {
            let answer = map.operate(g.operation, g.key, g.value);
            if answer.is_some() {
                self.compared = self.compared.wrapping_add(1);
                if answer != g.answer {
                    self.wrong = self.wrong.wrapping_add(1);
                }
            }
        }
    }
}

// "a commit or prepare with outcome 5 or 7 decides it"
fn decides(step: Step, outcome: Outcome) -> bool {
    (is_of(step, Kind::Commit) || is_of(step, Kind::Prepare))
        && matches!(outcome, Outcome::Decided | Outcome::Committed)
}

impl World {
    pub fn new(servers: u64) -> World {
        World {
            clients: [Client::idle(); 16],
            current: 0,
            servers,
            names: [0; 32],
            mode: Mode::Fills,
            cursor: 0,
            kept: 0,
            tally: Tally::new(),
        }
    }

    // Whether a client's prepares, or its applies, are due.
    pub fn is_due(&self, client: usize) -> bool {
        self.clients.get(client).is_some_and(|c| c.is_due())
    }

    // How many operations a client's transaction has.
    pub fn given(&self, client: usize) -> usize {
        self.clients.get(client).map_or(0, |c| c.count)
    }

    // A step and its outcome, and the output that was lent to it. What a client was given stands in the log, and goes to the map once it is
    // decided.
    pub fn note(
        &mut self,
        log: &mut Log,
        map: &mut Map,
        step: Step,
        outcome: Outcome,
        out: &[u8; 512],
        left: u64,
    ) {
        self.tally.note(step.kind, outcome);
        if is_of(step, Kind::Add) && matches!(outcome, Outcome::Done) {
            self.servers = self.servers.max(step.server.saturating_add(1));
        }
        let at = step.client as usize;
        let Some(client) = self.clients.get_mut(at) else {
            return;
        };
        if decides(step, outcome) {
            self.tally.replay(&log[at][..client.count], map);
        }
        client.note(&mut log[at], step, outcome, out, left);
        self.learn(step, outcome);
        self.current = at;
    }

    // The names of nodes that were fetched, and the keys that were filled in or read.
    fn learn(&mut self, step: Step, outcome: Outcome) {
        if let Outcome::Fetched(1, name) = outcome {
            let at = (self.tally.steps % 32) as usize;
            self.names[at] = name;
        }
        match self.mode {
            Mode::Random => {}
            Mode::Fills => self.fill(step, outcome),
            Mode::Reads | Mode::Last | Mode::Read => self.read(step, outcome),
        }
    }

    fn fill(&mut self, step: Step, outcome: Outcome) {
        if is_of(step, Kind::Give) && matches!(outcome, Outcome::Done) {
            self.cursor = self.cursor.wrapping_add(1);
        }
    }

    // The key that was read last, and whether all is read.
    fn read(&mut self, step: Step, outcome: Outcome) {
        if is_of(step, Kind::Begin) {
            self.kept = self.cursor;
        }
        if decides(step, outcome) && self.mode == Mode::Last {
            self.mode = Mode::Read;
        }
        match outcome {
            Outcome::Aborted(_) => {
                self.cursor = self.kept;
                self.mode = Mode::Reads;
            }
            Outcome::Answered(a, b) => self.read_next(a, b),
            _ => {}
        }
    }

    // Each second answer is that of a next.
    fn read_next(&mut self, a: u64, b: u64) {
        if self.given(0) % 2 != 0 {
            return;
        }
        if a == 1 {
            self.cursor = b;
        } else {
            self.mode = Mode::Last;
        }
    }
}
