// The next step of a random schedule, chosen by what earlier outcomes show.
use crate::clients::Phase;
use crate::driver::Trial;
use crate::step::{Kind, Operation, at_server, give, plain};
use crate::world::Mode;
use steps::step::Step;

// A transaction with this many operations is given no more.
const MOST_GIVEN: usize = 120;

impl Trial {
    // A client: mostly the one that acted last, else mostly one of those awake.
    fn picked(&mut self) -> usize {
        let p = self.profile;
        let current = self.world.current;
        let goes_on = if self.world.is_due(current) {
            p.finishes
        } else {
            p.sticks
        };
        if self.rng.happens(goes_on) {
            return current;
        }
        let among = if self.rng.happens(9500) {
            p.awake
        } else {
            p.clients
        };
        self.rng.draw_any(among) as usize
    }

    // The same, but where prepares and applies are late, mostly one that has none due.
    fn picked_late(&mut self) -> usize {
        let p = self.profile;
        let mut client = self.picked();
        for _ in 0..8 {
            if !self.world.is_due(client) || !self.rng.happens(p.late) {
                return client;
            }
            client = self.rng.draw_any(p.clients) as usize;
        }
        client
    }

    // A key: of the map, of a narrow range that wanders, now and then the least or the largest, else any.
    fn drawn_key(&mut self, operation: Operation) -> u64 {
        let p = self.profile;
        if self.rng.happens(30) {
            return if self.rng.happens(5000) { u64::MAX } else { 0 };
        }
        if self.rng.happens(p.narrow) {
            let centre = self.world.tally.steps / 500 * 7;
            return (centre + self.rng.draw(24)) % p.keys.saturating_add(1);
        }
        if operation != Operation::Insert && self.rng.happens(6000) {
            let at = self.rng.draw_any(self.map.len() as u64);
            return self.map.key_at(at as usize);
        }
        self.rng.draw_any(p.keys)
    }

    // A server: mostly one that is or was there, now and then any of the eight.
    fn drawn_server(&mut self) -> u64 {
        let servers = if self.rng.happens(300) {
            8
        } else {
            self.world.servers
        };
        self.rng.draw_any(servers)
    }

    // A node's name: mostly of one fetched lately.
    fn drawn_name(&mut self) -> u64 {
        if self.rng.happens(8500) {
            return self.world.names[self.rng.draw(32) as usize];
        }
        let server = self.drawn_server();
        let slot = self.rng.draw_any(self.profile.slots);
        server.wrapping_mul(1024).wrapping_add(slot)
    }

    // A value; of a list a count, now and then one that is refused.
    fn drawn_value(&mut self, operation: Operation) -> u64 {
        if operation != Operation::List {
            return self.rng.draw(1000);
        }
        if self.rng.happens(100) {
            self.rng.draw(40)
        } else {
            self.rng.draw(32) + 1
        }
    }

    // An operation that a client gives, by the mix whose turn it is.
    fn drawn(&mut self, client: usize) -> Step {
        let p = self.profile;
        let grows = self.world.tally.steps / p.period.saturating_add(1) % 2 == 0;
        let mix = if grows { p.grow } else { p.shrink };
        let operation = mix.at(self.rng.draw_any(mix.total()));
        if operation == Operation::Migrate {
            let name = self.drawn_name();
            return give(client, operation, name, 0, self.drawn_server());
        }
        let key = self.drawn_key(operation);
        give(client, operation, key, self.drawn_value(operation), 0)
    }

    // A server at which the client has not yet tried its prepare, or its apply: one that takes part is or was there.
    fn untried(&mut self, client: usize) -> u64 {
        let servers = self.world.servers.max(1);
        let mut server = self.rng.draw(servers);
        if let Some(c) = self.world.clients.get(client) {
            for _ in 0..8 {
                if !c.has_tried(server) {
                    return server;
                }
                server = server.wrapping_add(1) % servers;
            }
        }
        server
    }

    // What a client with an open transaction does.
    fn opened(&mut self, client: usize) -> Step {
        let Some(c) = self.world.clients.get(client) else {
            return plain(Kind::Commit, client);
        };
        if c.waits {
            return plain(Kind::Work, client);
        }
        let given = c.count;
        if c.left == 0 || MOST_GIVEN < given || self.world.mode == Mode::Last {
            return plain(Kind::Commit, client);
        }
        let operation = match self.world.mode {
            Mode::Random => return self.drawn(client),
            Mode::Reads if given % 2 == 0 => Operation::Lookup,
            Mode::Reads => Operation::Next,
            Mode::Fills | Mode::Last | Mode::Read => Operation::Insert,
        };
        give(client, operation, self.world.cursor, 7, 0)
    }

    // An add, a close or a removal of a server. The client, which isn't looked at, is the one that acted last, so that it stays so.
    fn changed(&mut self) -> Step {
        let kind = match self.rng.draw(3) {
            0 => Kind::Add,
            1 => Kind::Close,
            _ => Kind::Remove,
        };
        at_server(kind, self.world.current, self.rng.draw(8))
    }

    // Any step, most of them of the store.
    fn arbitrary(&mut self) -> Step {
        let p = self.profile;
        let client = self.rng.draw_any(p.clients) as usize;
        let mut step = self.drawn(client);
        let kind = self.rng.draw_any(p.kinds);
        let is_rare = (Kind::Apply as u64) < kind && self.rng.happens(8000);
        let is_long = kind == Kind::Give as u64 && MOST_GIVEN < self.world.given(client);
        step.kind = if is_rare || is_long {
            Kind::Work as u64
        } else {
            kind
        };
        step.server = self.rng.draw(9);
        if self.rng.happens(300) {
            step.op = self.rng.draw(9);
        }
        if self.rng.happens(300) {
            step.client = self.rng.draw(18);
        }
        step
    }

    // The next step of a client.
    fn next_of(&mut self, client: usize) -> Step {
        let phase = self
            .world
            .clients
            .get(client)
            .map_or(Phase::Idle, |c| c.phase);
        if phase == Phase::Idle {
            return plain(Kind::Begin, client);
        }
        if phase == Phase::Decided {
            return at_server(Kind::Apply, client, self.untried(client));
        }
        if self.rng.happens(self.profile.gives_up) {
            return plain(Kind::GiveUp, client);
        }
        if phase == Phase::Open {
            return self.opened(client);
        }
        at_server(Kind::Prepare, client, self.untried(client))
    }

    // The next step.
    pub fn chosen(&mut self) -> Step {
        let p = self.profile;
        if self.rng.happens(p.noise) {
            return self.arbitrary();
        }
        if self.rng.happens(p.changes) {
            return self.changed();
        }
        let client = self.picked_late();
        if self.rng.happens(p.loses) {
            return plain(Kind::Lost, client);
        }
        self.next_of(client)
    }
}
