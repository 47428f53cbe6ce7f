// A server's vector: sixteen words with the taken flags of its slots, 64 in each word, lowest bit first.
ghost use Rattle.std.specs.Prelude.{◌≡◌, ◌<◌, ◌≤◌};
ghost use Rattle.nodes.specs.Found.{found, Inside};
ghost use Rattle.nodes.specs.Vector.{free_from, first_free};
ghost use Rattle.nodes.specs.Flags.{bits, otherwise, flags_in, with_flag};
ghost use Rattle.nodes.specs.Bounds.{end_of_slots, word_bits};

// the lowest bit that is 0, from bit p on, or 64
fn first_zero(x: u64, p: u32) -> u32
    requires { p < word_bits }
    ensures { result ≡ otherwise word_bits (free_from p (bits word_bits x)) }
{
    let one: u64 = 1;
    let low = (one << p) - 1;
    u64::trailing_zeros(!x & !low)
}

// the lowest free slot from the slot `from` on
fn free_from(words: [u64; 16], slots: usize, from: usize) -> Option<usize>
    requires { from ≤ end_of_slots }
    ensures value { result ≡ found (free_from from (flags_in slots words)) }
    ensures inside { Inside result slots }
{
    let mut p = (from % 64) as u32;
    for w in from / 64..16 {
        let t = first_zero(words[w], p);
        if t < 64 {
            let slot = 64 * w + t as usize;
            return if slot < slots { Some(slot) } else { None };
        }
        p = 0;
    }
    None
}

// "it takes the first free slot above the split node's slot number, going round"
pub fn first_free(words: [u64; 16], slots: usize, slot: usize) -> Option<usize>
    requires { slot < end_of_slots }
    ensures value { result ≡ found (first_free slot (flags_in slots words)) }
    ensures inside { Inside result slots }
{
    match free_from(words, slots, slot + 1) {
        Some(above) => Some(above),
        None => free_from(words, slots, 0),
    }
}

// the vector with a slot's flag set or cleared
pub fn with_taken(words: [u64; 16], slot: usize, taken: bool) -> [u64; 16]
    requires { slot < end_of_slots }
    ensures { result ≡ with_flag words slot taken }
{
    let w = slot / 64;
    let p = (slot % 64) as u32;
    let mut out = words;
    out[w] = memory::bits::put(words[w], p, taken);
    out
}
