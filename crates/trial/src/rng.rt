// A generator of numbers that are the same in every run.
ghost use Rattle.std.specs.Prelude.{◌<◌, ◌≤◌};

#[derive(Drop)]
pub struct Rng {
    state: u64,
}

// The next state (Marsaglia's xorshift).
pub fn shuffled(state: u64) -> u64 {
    let a = state ^ (state << 13);
    let b = a ^ (a >> 7);
    b ^ (b << 17)
}

impl Rng {
    pub fn new(seed: u64) -> Rng {
        Rng { state: seed }
    }

    // A number below the bound.
    pub fn draw(&mut self, bound: u64) -> u64
        requires { 0 < bound }
        ensures { result < bound }
    {
        self.state = shuffled(self.state);
        (self.state >> 20) % bound
    }

    // The same, and 0 where there is none.
    pub fn draw_any(&mut self, bound: u64) -> u64
        ensures { result ≤ bound }
    {
        if bound == 0 { 0 } else { self.draw(bound) }
    }

    // Whether something happens that does so this many times in ten thousand.
    pub fn happens(&mut self, times: u64) -> bool {
        self.draw(10000) < times
    }
}
