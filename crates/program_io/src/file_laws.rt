//! The public limits as numbers.
ghost use Rattle.std.specs.Prelude.{◌≡◌};

use crate::file_why::MAX_WHY_LEN;
use crate::named::MAX_FILE_LEN;

/// A named file has at most 16,777,472 bytes, but a state may have more. A line that says why has at most 200.
pub fn limits_law()
    ensures file { MAX_FILE_LEN ≡ 16777472 }
    ensures why { MAX_WHY_LEN ≡ 200 }
{}
