//! The key that signs a log.
ghost use Rattle.std.specs.Prelude.{◌≡◌};
ghost use Rattle.state_commands.specs.Signing.{first_secret};

use signed_note::{HmacKey, KeyLine};

/// The first key with a shared secret in a key file, which signs a log. `None` if there is no such key, since pinned texts
/// sign nothing.
///
/// ```text
/// let Some(key) = signing_key(read_keys(alloc, &bytes)?) else { .. };
/// ```
pub fn signing_key(keys: Vec<KeyLine>) -> Option<HmacKey>
    ensures { result ≡ first_secret keys.items }
{
    for line in keys {
        match line {
            KeyLine::Hmac(key) => return Some(key),
            KeyLine::Pin(_) => {}
        }
    }
    None
}
