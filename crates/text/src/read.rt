// A line read byte by byte, so that it may be longer than any buffer: leading zeros have no limit.
ghost use Rattle.std.specs.Prelude.{◌≡◌, ◌<◌};
ghost use Rattle.text.specs.Reader.{start, spoiled, with_digit, ended, next, finish};

// What a good line says. Its numbers have no names yet: which fields they are is said where the line is used, and this crate knows nothing of a store.
#[derive(Clone, Copy)]
pub enum Line {
    Sizes(u64, u64, u64),
    Step(u64, u64, u64, u64, u64, u64),
}

// What the bytes read so far say: the numbers that a space ended, the number whose digits came since, if any did, and whether the
// line can still be good. The numbers lie in an array beside their count, since nothing is allocated here. `good` stays a flag: a line that is spoiled is
// read to its end all the same, and `spoiled` says that the rest stays as it was.
#[derive(Clone, Copy)]
pub struct Reader {
    pub numbers: [u64; 5],
    pub count: usize,
    pub value: Option<u64>,
    pub good: bool,
}

impl Reader {
    pub fn start() -> Reader
        ensures { result ≡ start }
    {
        Reader {
            numbers: [0; 5],
            count: 0,
            value: None,
            good: true,
        }
    }

    // One byte more.
    pub fn next(self, byte: u8) -> Reader
        ensures { result ≡ next self byte }
    {
        match byte {
            b' ' => self.ended(),
            b'0'..=b'9' => self.with_digit((byte - b'0') as u64),
            _ => self.spoiled(),
        }
    }

    // What the line says, if it ends here and is good.
    pub fn finish(self) -> Option<Line>
        ensures { result ≡ finish self }
    {
        if !self.good {
            return None;
        }
        let last = self.value?;
        let n = self.numbers;
        match self.count {
            2 => Some(Line::Sizes(n[0], n[1], last)),
            5 => Some(Line::Step(n[0], n[1], n[2], n[3], n[4], last)),
            _ => None,
        }
    }

    // A digit: the number goes on, if it stays below 2^64.
    fn with_digit(mut self, digit: u64) -> Reader
        requires { digit < 10 }
        ensures { result ≡ with_digit self digit }
    {
        let so_far = self.value.unwrap_or(0);
        if (u64::MAX - digit) / 10 < so_far {
            return self.spoiled();
        }
        self.value = Some(10 * so_far + digit);
        self
    }

    // A space: the number ends, if it has a digit and another one may follow.
    fn ended(mut self) -> Reader
        ensures { result ≡ ended self }
    {
        let Some(number) = self.value else {
            return self.spoiled();
        };
        if 4 < self.count {
            return self.spoiled();
        }
        let at = self.count;
        self.numbers[at] = number;
        self.count = at + 1;
        self.value = None;
        self
    }

    // The line is no good.
    fn spoiled(mut self) -> Reader
        ensures { result ≡ spoiled self }
    {
        self.good = false;
        self
    }
}
