//! The split of a tree.
ghost use Rattle.std.specs.Prelude.{◌≡◌, ◌↔◌, ◌<◌, ◌≤◌, IsTrue};
ghost use Rattle.tlog_shape.specs.Split.{split_of, IsPowerOfTwo};

/// The largest power of two smaller than `n` (RFC 6962, section 2.1).
pub fn split(n: u64) -> u64
    requires { 2 ≤ n }
    ensures value { result ≡ split_of n }
    ensures positive { 0 < result }
    ensures below { result < n }
{
    let mut k = 1;
    while k < n - k {
        k *= 2;
    }
    k
}

/// Whether the tree of `n` entries is perfect, that is, whether `n` is a power of two.
pub fn is_perfect(n: u64) -> bool
    ensures { IsTrue result ↔ IsPowerOfTwo n }
{
    if n < 2 {
        return n == 1;
    }
    let k = split(n);
    n - k == k
}
