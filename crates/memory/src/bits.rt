// The bits of a word, as a set of numbers below 64.
ghost use Rattle.std.specs.Prelude.{◌≡◌, true, false, ◌<◌};
ghost use Rattle.memory.specs.Bit.{bit, put_bit};

// Is i in the set?
pub fn has(word: u64, i: u32) -> bool
    requires { i < 64 }
    ensures { result ≡ bit word i }
{
    (word >> i) % 2 == 1
}

// The set with i in it.
pub fn with(word: u64, i: u32) -> u64
    requires { i < 64 }
    ensures { result ≡ put_bit true word i }
{
    let one: u64 = 1;
    word | (one << i)
}

// The set without i.
pub fn without(word: u64, i: u32) -> u64
    requires { i < 64 }
    ensures { result ≡ put_bit false word i }
{
    let one: u64 = 1;
    with(word, i) - (one << i)
}

// The set with i in it, or without i.
pub fn put(word: u64, i: u32, on: bool) -> u64
    requires { i < 64 }
    ensures { result ≡ put_bit on word i }
{
    if on { with(word, i) } else { without(word, i) }
}
