// The sizes: their ranges, and where they stand.
ghost use Rattle.std.specs.Prelude.{◌≡◌, ◌<◌, length};
ghost use Rattle.memory.specs.Word.{view};
ghost use Rattle.steps.specs.Refusal.{between, allowed?};
ghost use Rattle.kinds.specs.Parts.{head_sizes};

use memory::read_word;
use steps::sizes::Sizes;

// Is a number within its range?
pub fn between(low: u64, high: u64, n: u64) -> bool
    ensures { result ≡ between low high n }
{
    if low <= n {
        return n <= high;
    }
    false
}

// Is each size within its range?
pub fn allowed(sizes: Sizes) -> bool
    ensures { result ≡ allowed? sizes }
{
    if between(1, 8, sizes.servers as u64) {
        if between(1, 1024, sizes.slots as u64) {
            return between(1, 16, sizes.clients as u64);
        }
    }
    false
}

// "a 64-byte head holding the three sizes"
pub fn head(mem: &[u8]) -> Sizes
    requires { 63 < length mem.now }
    ensures { result ≡ head_sizes (view mem.now) }
{
    let servers = read_word(mem, 0) as usize;
    let slots = read_word(mem, 1) as usize;
    let clients = read_word(mem, 2) as usize;
    Sizes {
        servers,
        slots,
        clients,
    }
}
