//! The names of the keys of this crate.

ghost use Rattle.std.specs.Prelude.{◌≡◌, ◌↔◌, IsTrue, nat_le};
ghost use Rattle.std.specs.List.{list_all};
ghost use Rattle.std.specs.Str.{chars};
ghost use Rattle.signed_note.specs.Names.{space};
ghost use Rattle.signed_note.specs.KeyKinds.{IsOwnName};

use crate::key_limits::MAX_NAME_LEN;
use crate::name::is_key_name;

/// Whether no character is below U+0020.
fn is_printed(name: &str) -> bool
    ensures { result ≡ list_all (nat_le space) (chars name.now) }
{
    name.chars().all(|c| ' ' <= c)
}

/// Whether a key of this crate may have that name.
pub fn is_own_name(name: &str) -> bool
    ensures { IsTrue result ↔ IsOwnName name.now }
{
    is_key_name(name) && is_printed(name) && name.len() <= MAX_NAME_LEN
}
