//! Possible origins of logs.
ghost use Rattle.std.specs.Prelude.{◌≤◌, ◌↔◌, All, IsTrue};
ghost use Rattle.mirror_model.specs.Origin.{IsOrigin};

/// Whether a log may have that origin: 1 to 65,535 bytes, and no character below U+0020.
///
/// ```text
/// is_origin("example.com/log")   // true
/// is_origin("")                  // false
/// ```
pub fn is_origin(origin: &str) -> bool
    ensures { IsTrue result ↔ IsOrigin origin.now }
{
    !origin.is_empty() && origin.len() <= 65_535 && is_printed(origin.as_bytes())
}

// Whether no byte is a control character.
fn is_printed(bytes: &[u8]) -> bool
    ensures { IsTrue result ↔ All (λ byte. 32 ≤ byte) bytes.now }
{
    bytes.iter().all(|byte| *byte >= 32)
}
