// What the steps and their outcomes show of a client.
ghost use Rattle.std.specs.Prelude.{◌≤◌};

use crate::map::{Answer, with_pair};
use crate::step::{Kind, Operation, is_of};
use memory::read_word;
use steps::outcome::Outcome;
use steps::step::Step;

// Where a client's transaction is.
#[derive(Clone, Copy, PartialEq, Eq)]
pub enum Phase {
    Idle,
    Open,
    Committing,
    Decided,
}

// An operation as it was given, and its answer, once it has one.
#[derive(Clone, Copy)]
pub struct Given {
    pub operation: Operation,
    pub key: u64,
    pub value: u64,
    pub answer: Option<Answer>,
}

// For each client the operations that its transaction was given, as far as they are counted.
pub type Log = [[Given; 128]; 16];

// The transaction: where it is; whether an operation waits; how many are still to be given; at which servers its prepare, or its
// apply, has been tried; and how many were given.
#[derive(Clone, Copy)]
pub struct Client {
    pub phase: Phase,
    pub waits: bool,
    pub left: u64,
    pub tried: [bool; 8],
    pub count: usize,
    pub ghost in_log: { count ≤ 128 },
}

// A number that stands for the first pairs of an output, where b is 0.
fn pairs_of(out: &[u8; 512], count: u64, b: u64) -> u64 {
    let mut sum = b;
    for pair in out.chunks_exact(16).take(count as usize) {
        sum = with_pair(sum, read_word(pair, 0), read_word(pair, 1));
    }
    sum
}

impl Given {
    // What stands in a log where nothing has been given yet.
    pub const NONE: Given = Given {
        operation: Operation::Lookup,
        key: 0,
        value: 0,
        answer: None,
    };
}

impl Client {
    pub fn idle() -> Client
        ensures { result.count ≤ 128 }
    {
        Client {
            phase: Phase::Idle,
            waits: false,
            left: 0,
            tried: [false; 8],
            count: 0,
        }
    }

    // Whether its prepares, or its applies, are due.
    pub fn is_due(&self) -> bool {
        matches!(self.phase, Phase::Committing | Phase::Decided)
    }

    pub fn has_tried(&self, server: u64) -> bool {
        self.tried.get(server as usize).is_some_and(|tried| *tried)
    }

    // A phase begins in which no server has been tried.
    fn enter(&mut self, phase: Phase) {
        self.phase = phase;
        self.waits = false;
        self.tried = [false; 8];
    }

    // No transaction.
    fn end(&mut self) {
        self.enter(Phase::Idle);
        self.count = 0;
    }

    fn begin(&mut self, left: u64) {
        self.end();
        self.enter(Phase::Open);
        self.left = left;
    }

    // A prepare or an apply at a server has been tried.
    fn try_at(&mut self, server: u64) {
        if let Some(tried) = self.tried.get_mut(server as usize) {
            *tried = true;
        }
    }

    // An operation is given; no more than 128 are counted.
    fn give(&mut self, log: &mut [Given; 128], step: Step) {
        self.waits = true;
        self.left = self.left.saturating_sub(1);
        if self.count == log.len() {
            return;
        }
        if let Some(operation) = Operation::numbered(step.op) {
            log[self.count] = Given {
                operation,
                key: step.key,
                value: step.value,
                answer: None,
            };
            self.count += 1;
        }
    }

    // The operation that waits is answered. Of a list, b stands for the pairs that it wrote.
    fn answer(&mut self, log: &mut [Given; 128], a: u64, b: u64, out: &[u8; 512]) {
        self.waits = false;
        if let Some(given) = log[..self.count].last_mut() {
            let is_list = given.operation == Operation::List;
            let b = if is_list { pairs_of(out, a, b) } else { b };
            given.answer = Some(Answer { a, b });
        }
    }

    // A step is done. The transaction that begins may have this many operations.
    fn done(&mut self, log: &mut [Given; 128], step: Step, left: u64) {
        if is_of(step, Kind::Begin) {
            self.begin(left);
        }
        if is_of(step, Kind::Give) {
            self.give(log, step);
        }
        if is_of(step, Kind::Commit) {
            self.enter(Phase::Committing);
        }
    }

    // A prepare or an apply is refused where it is not due: it counts as tried all the same.
    fn refused(&mut self, step: Step) {
        let is_tried = match self.phase {
            Phase::Committing => is_of(step, Kind::Prepare),
            Phase::Decided => is_of(step, Kind::Apply),
            Phase::Idle | Phase::Open => false,
        };
        if is_tried {
            self.try_at(step.server);
        }
    }

    // After a step that came to this outcome.
    pub fn note(
        &mut self,
        log: &mut [Given; 128],
        step: Step,
        outcome: Outcome,
        out: &[u8; 512],
        left: u64,
    ) {
        match outcome {
            Outcome::Refused(_) => self.refused(step),
            Outcome::Done => self.done(log, step, left),
            Outcome::Fetched(_, _) => {}
            Outcome::Answered(a, b) => self.answer(log, a, b, out),
            Outcome::Prepared(_) | Outcome::Applied(_) => self.try_at(step.server),
            Outcome::Decided => self.enter(Phase::Decided),
            Outcome::Committed | Outcome::Aborted(_) => self.end(),
        }
    }
}
