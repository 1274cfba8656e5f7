//! The number of entries below a hash of a level.
ghost use Rattle.std.specs.Prelude.{◌≡◌, ◌^◌, ◌≤◌};
ghost use Rattle.tlog_shape.specs.Split.{IsPowerOfTwo};

/// The number of entries below a hash of that level of tiles (C2SP tlog-tiles, "Merkle Tree"), from 0 to 7.
///
/// ```
/// assert_eq!(unit_of(1), 256);
/// ```
pub fn unit_of(level: u32) -> u64
    requires { level ≤ 7 }
    ensures value { result ≡ 256 ^ level }
    ensures power { IsPowerOfTwo result }
{
    1 << (8 * level)
}
