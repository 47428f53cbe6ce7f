// A random schedule: its steps are run, noted, and replayed on the map once they are decided.
use crate::clients::{Given, Log};
use crate::map::Map;
use crate::profile::Profile;
use crate::rng::Rng;
use crate::step::{Kind, at_server, plain};
use crate::world::{Mode, Tally, World};
use steps::outcome::Outcome;
use steps::sizes::Sizes;
use steps::step::Step;

// More steps than filling in or reading all keys takes.
const MANY: u64 = 100000;

// A schedule of a profile that runs, and the map. The log is lent beside it, so that it isn't copied.
#[derive(Drop)]
pub struct Trial {
    pub profile: Profile,
    pub rng: Rng,
    pub world: World,
    pub map: Map,
}

// A step, lent the output, or one that no list fits in.
fn lent(memory: &mut [u8], out: &mut [u8; 512], is_short: bool, step: Step) -> Outcome {
    if is_short {
        let mut short = [0u8; 15];
        return engine::step::step(memory, &mut short, step);
    }
    engine::step::step(memory, out, step)
}

impl Trial {
    // A step, run and noted.
    fn take(&mut self, memory: &mut [u8], log: &mut Log, is_short: bool, step: Step, left: u64) {
        let mut out = [0u8; 512];
        let outcome = lent(memory, &mut out, is_short, step);
        self.world
            .note(log, &mut self.map, step, outcome, &out, left);
    }

    // All keys are filled in, or all are read.
    fn is_over(&self) -> bool {
        match self.world.mode {
            Mode::Fills => self.profile.prefill <= self.world.cursor,
            Mode::Read => true,
            Mode::Random | Mode::Reads | Mode::Last => false,
        }
    }

    // One step, now and then lent an output that no list fits in.
    fn go_on(&mut self, memory: &mut [u8], log: &mut Log) {
        let left = self.rng.draw_any(self.profile.ops).saturating_add(1);
        let step = self.chosen();
        let is_short = self.rng.happens(self.profile.noise);
        self.take(memory, log, is_short, step, left);
    }

    // Steps, at most this many.
    fn go(&mut self, memory: &mut [u8], log: &mut Log, limit: u64) {
        for _ in 0..limit {
            if self.is_over() {
                return;
            }
            self.go_on(memory, log);
        }
    }

    // Every transaction is given up, or applied if it is decided.
    fn settle(&mut self, memory: &mut [u8], log: &mut Log) {
        for client in 0..16 {
            self.take(memory, log, false, plain(Kind::GiveUp, client), 0);
            for server in 0..8 {
                let apply = at_server(Kind::Apply, client, server);
                self.take(memory, log, false, apply, 0);
            }
        }
    }

    // Everything is read. It is wrong if not all could be.
    fn read(&mut self, memory: &mut [u8], log: &mut Log) -> Tally {
        self.world.mode = Mode::Reads;
        self.world.cursor = 0;
        self.world.current = 0;
        self.go(memory, log, MANY);
        let mut tally = self.world.tally;
        if self.world.mode != Mode::Read {
            tally.wrong = tally.wrong.wrapping_add(1);
        }
        tally
    }

    // Keys are filled in, random steps are run, all is settled, and everything is read.
    fn run(&mut self, memory: &mut [u8], log: &mut Log) -> Tally {
        let profile = self.profile;
        self.profile = profile.calm();
        self.go(memory, log, MANY);
        self.profile = profile;
        self.world.mode = Mode::Random;
        self.go(memory, log, profile.steps);
        self.settle(memory, log);
        self.profile = profile.calm();
        self.read(memory, log)
    }
}

// The whole schedule of a profile, in a new store.
pub fn tried(memory: &mut [u8], profile: Profile, seed: u64) -> Tally {
    let sizes = Sizes {
        servers: profile.servers as usize,
        slots: profile.slots as usize,
        clients: profile.clients as usize,
    };
    // The sizes of each profile fit the memory of the largest store. In less, the store may be refused: the memory stays as it was, and the
    // steps go to the store that it holds, or are refused where it holds none.
    let _ = engine::open::open(memory, sizes);
    let mut log = [[Given::NONE; 128]; 16];
    let mut trial = Trial {
        profile,
        rng: Rng::new(seed),
        world: World::new(profile.servers),
        map: Map::new(),
    };
    trial.run(memory, &mut log)
}
