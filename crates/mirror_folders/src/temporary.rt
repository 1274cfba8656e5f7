//! The names of temporary files.
ghost use Rattle.std.specs.Prelude.{◌≤◌, IfOk, length, string_len};

use crate::place::name_of;
use std::alloc::{AllocError, Global};

// The greatest number of bytes of a file's name in the name of its temporary file. A name has up to 255 bytes, and the
// rest takes up to 37 of them.
const STEM: usize = 200;

// The first characters of the name of the file at a path: those in the names of its temporary files.
pub(crate) fn stem_of(path: &str) -> &str
    ensures { length result.now ≤ 200 }
{
    let name = name_of(path);
    let (stem, _) = name.split_at(name.floor_char_boundary(STEM));
    stem
}

// The name of a temporary file. No user takes such a name by chance.
fn temporary_name(alloc: Global, stem: &str, number: u64) -> Result<String, AllocError>
    requires { length stem.now ≤ 200 }
    ensures fits { IfOk result (λ name. string_len name ≤ 255) }
{
    let name = format!(in alloc; ".{stem}.tlogmirror-{number}.tmp")?;
    Ok(name)
}

// The path of a temporary file for the file at a path, in the same folder.
pub(crate) fn temporary_path(alloc: Global, path: &str, number: u64) -> Result<String, AllocError> {
    let name = temporary_name(alloc, stem_of(path), number)?;
    let folder = path.strip_suffix(name_of(path)).unwrap_or("");
    let place = format!(in alloc; "{folder}{name}")?;
    Ok(place)
}

// The part of a temporary file's name that comes from the name of its file.
pub(crate) fn stem_of_temporary(name: &str) -> Option<&str> {
    let (front, end) = name.rsplit_once(".tlogmirror-")?;
    if is_ending(end) {
        front.strip_prefix('.')
    } else {
        None
    }
}

// Whether the text is a number and `.tmp`.
fn is_ending(text: &str) -> bool {
    match text.strip_suffix(".tmp") {
        Some(number) => is_number(number),
        None => false,
    }
}

fn is_number(text: &str) -> bool {
    for byte in text.as_bytes() {
        if !byte.is_ascii_digit() {
            return false;
        }
    }
    !text.is_empty()
}
