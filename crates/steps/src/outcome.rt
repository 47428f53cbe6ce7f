// What comes of a step.
ghost use Rattle.std.specs.Prelude.{◌≡◌};
ghost use Rattle.steps.specs.Outcome.{line};

// "Outcomes: 0 refused (a number); 1 done; 2 fetched (a 0 metadata, 1 node, 2 vector; b name or server); 3 answered; 4 prepared (a server);
// 5 decided; 6 applied (a server); 7 committed; 8 aborted (a reason)." A refusal and a reason are numbers here, since `line` tells them and theorems
// speak of them: no step of a sound store comes to `Refused 10`.
#[derive(Clone, Copy)]
pub enum Outcome {
    Refused(u64),
    Done,
    Fetched(u64, u64),
    Answered(u64, u64),
    Prepared(u64),
    Decided,
    Applied(u64),
    Committed,
    Aborted(u64),
}

// The three numbers that stand for an outcome: its own, a and b.
#[derive(Clone, Copy)]
pub struct Line {
    pub outcome: u64,
    pub a: u64,
    pub b: u64,
}

impl From<Outcome> for Line {
    ghost from_gives = { λ outcome l. l ≡ line outcome };

    #[tactic(auto, unfolding(crate::specs::Outcome::line))]
    fn from(outcome: Outcome) -> Line {
        match outcome {
            Outcome::Refused(number) => Line {
                outcome: 0,
                a: number,
                b: 0,
            },
            Outcome::Done => Line {
                outcome: 1,
                a: 0,
                b: 0,
            },
            Outcome::Fetched(what, which) => Line {
                outcome: 2,
                a: what,
                b: which,
            },
            Outcome::Answered(a, b) => Line { outcome: 3, a, b },
            Outcome::Prepared(server) => Line {
                outcome: 4,
                a: server,
                b: 0,
            },
            Outcome::Decided => Line {
                outcome: 5,
                a: 0,
                b: 0,
            },
            Outcome::Applied(server) => Line {
                outcome: 6,
                a: server,
                b: 0,
            },
            Outcome::Committed => Line {
                outcome: 7,
                a: 0,
                b: 0,
            },
            Outcome::Aborted(reason) => Line {
                outcome: 8,
                a: reason,
                b: 0,
            },
        }
    }
}
