// Lines printed into a lent buffer from index at on. Each function returns the index behind what it printed.
// Buffer and index are no struct: it would hold a `&mut`, and each function here and in `show` would promise besides that this stays the same one.
ghost use Rattle.std.specs.Prelude.{◌≡◌, ◌+◌, ◌≤◌, length};
ghost use Rattle.text.specs.Print.{field, step_line, store_line, refused_line, bad_line, Printed};

// The bytes given.
pub fn put(out: &mut [u8], at: usize, bytes: &[u8]) -> usize
    requires { at + length bytes.now ≤ length out.old }
    ensures { Printed out.old at bytes.now out.new result }
{
    let end = at + bytes.len();
    out[at..end].copy_from_slice(bytes);
    end
}

// A number in decimal, and the byte that ends it.
pub fn put_field(out: &mut [u8], at: usize, n: u64, end: u8) -> usize
    requires { at + 21 ≤ length out.old }
    ensures printed { Printed out.old at (field n end) out.new result }
    ensures short { result ≤ at + 21 }
{
    let mut digits = [0u8; 20];
    let count = io::decimal(n, &mut digits);
    let last = put(out, at, &digits[..count]);
    out[last] = end;
    last + 1
}

// "Fields: step from 0, outcome, a, b."
pub fn put_step(out: &mut [u8], at: usize, step: u64, outcome: u64, a: u64, b: u64) -> usize
    requires { at + 84 ≤ length out.old }
    ensures printed { Printed out.old at (step_line step outcome a b) out.new result }
    ensures short { result ≤ at + 84 }
{
    let at1 = put_field(out, at, step, 32);
    let at2 = put_field(out, at1, outcome, 32);
    let at3 = put_field(out, at2, a, 32);
    put_field(out, at3, b, 10)
}

// "Accepted sizes come first."
pub fn put_store(out: &mut [u8], at: usize, servers: u64, slots: u64, clients: u64) -> usize
    requires { at + 69 ≤ length out.old }
    ensures printed { Printed out.old at (store_line servers slots clients) out.new result }
    ensures short { result ≤ at + 69 }
{
    let at1 = put(out, at, b"store ");
    let at2 = put_field(out, at1, servers, 32);
    let at3 = put_field(out, at2, slots, 32);
    put_field(out, at3, clients, 10)
}

// "Sizes refused by 2 print `store refused 2`."
pub fn put_refused(out: &mut [u8], at: usize) -> usize
    requires { at + 16 ≤ length out.old }
    ensures printed { Printed out.old at refused_line out.new result }
    ensures short { result ≡ at + 16 }
{
    put(out, at, b"store refused 2\n")
}

// "prints `bad`"
pub fn put_bad(out: &mut [u8], at: usize) -> usize
    requires { at + 4 ≤ length out.old }
    ensures printed { Printed out.old at bad_line out.new result }
    ensures short { result ≡ at + 4 }
{
    put(out, at, b"bad\n")
}
