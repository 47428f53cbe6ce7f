// Lists of numbers at the front of arrays, with zeros after them.
ghost use Rattle.std.specs.Prelude.{◌≡◌, ◌++◌, ◌+◌, ◌≤◌, ◌<◌, length, take, drop};
ghost use Rattle.std.proofs.Math.Seq.{paste};
ghost use Rattle.nodes.specs.Lists.{pad, insert_at, remove_at};
ghost use Rattle.nodes.specs.Bounds.{most_children, most_keys, wide_room};

// n elements of src, from the place `from` on, written to dst at the place `at` on
pub fn blit(dst: &mut [u64], at: usize, src: &[u64], from: usize, n: usize)
    requires { (at + n ≤ length dst.old) × (from + n ≤ length src.now) }
    ensures dst_after { dst.new ≡ paste dst.old at (drop from src.now) n }
    ensures size { length dst.new ≡ length dst.old }
{
    dst[at..at + n].copy_from_slice(&src[from..from + n]);
}

// the first n of a, then m of b from the place `from` on
pub fn joined(a: &[u64], n: usize, b: &[u64], from: usize, m: usize) -> [u64; 32]
    requires { (n + m ≤ wide_room) × (n ≤ length a.now) × (from + m ≤ length b.now) }
    ensures value { result ≡ pad wide_room (take n a.now ++ take m (drop from b.now)) }
    ensures size { length result ≡ wide_room }
{
    let mut out = [0u64; 32];
    blit(&mut out, 0, a, 0, n);
    blit(&mut out, n, b, from, m);
    out
}

// the first n of a with v put in at the place `at`
pub fn inserted(a: &[u64], n: usize, at: usize, v: u64) -> [u64; 32]
    requires { (at ≤ n) × (n < wide_room) × (n ≤ length a.now) }
    ensures { result ≡ pad wide_room (insert_at at v (take n a.now)) }
{
    let t = joined(a, at, &[v], 0, 1);
    joined(&t, at + 1, a, at, n - at)
}

// the first n of a without the one at the place `at`
pub fn removed(a: &[u64], n: usize, at: usize) -> [u64; 32]
    requires { (at < n) × (n ≤ wide_room) × (n ≤ length a.now) }
    ensures { result ≡ pad wide_room (remove_at at (take n a.now)) }
{
    joined(a, at, a, at + 1, n - at - 1)
}

// the m elements of a from the place `from` on, as an array of N: of keys, or of slots
pub fn section<const N: usize>(a: &[u64], from: usize, m: usize) -> [u64; N]
    requires { (m ≤ N) × (from + m ≤ length a.now) }
    ensures { result ≡ pad N (take m (drop from a.now)) }
{
    let mut out = [0u64; N];
    blit(&mut out, 0, a, from, m);
    out
}
