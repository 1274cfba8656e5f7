//! The names of keys, and the characters of notes.

ghost use Rattle.std.specs.Prelude.{◌≡◌, ◌↔◌, IsTrue};
ghost use Rattle.std.specs.List.{list_all};
ghost use Rattle.std.specs.Str.{chars};
ghost use Rattle.signed_note.specs.Names.{is_note_char, is_name_char, IsKeyName};

/// Whether each character is a newline or at least U+0020.
pub fn is_note_text(text: &str) -> bool
    ensures { result ≡ list_all is_note_char (chars text.now) }
{
    text.chars().all(|c| c == '\n' || c >= ' ')
}

/// Whether no character is white space or a plus.
fn has_name_characters(name: &str) -> bool
    ensures { result ≡ list_all is_name_char (chars name.now) }
{
    name.chars().all(|c| !(c.is_whitespace() || c == '+'))
}

/// Whether a signature line may have that name (C2SP signed-note, "Signatures"): it is not empty, and has no Unicode white
/// space and no plus. `ex/log` is such a name, and `a b` is not. The call allocates no memory.
pub fn is_key_name(name: &str) -> bool
    ensures { IsTrue result ↔ IsKeyName name.now }
{
    !name.is_empty() && has_name_characters(name)
}
