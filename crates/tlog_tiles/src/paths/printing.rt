//! The text of a path.
ghost use Rattle.std.specs.Prelude.{◌≡◌, ◌<◌, ◌+◌, ◌++◌, ◌∷◌, [], IfOk, string_bytes};
ghost use Rattle.std.specs.Fmt.{WritesOnOk};
ghost use Rattle.tlog_tiles.specs.Path.{groups_text, index_text, path_text, three_digits, width_text};

use crate::paths::Path;
use std::alloc::{AllocError, Global};
use std::fmt;

impl Path {
    /// The text of the path. The text of a lawful path is the one that `Path::parse` reads. Any other path is printed by the
    /// same rule, but is not read back.
    ///
    /// # Errors
    ///
    /// Memory was refused.
    pub fn text(&self, alloc: Global) -> Result<String, AllocError>
        ensures { IfOk result (λ text. string_bytes text ≡ path_text self.now) }
    {
        self.to_string(alloc)
    }
}

/// The text of the path, as `Path::text` returns it.
///
/// # Errors
///
/// Memory was refused.
pub fn print(alloc: Global, path: &Path) -> Result<String, AllocError>
    ensures { IfOk result (λ text. string_bytes text ≡ path_text path.now) }
{
    path.text(alloc)
}

impl fmt::Display for Path {
    ghost use Rattle.std.specs.Prelude.{Some};

    ghost output = { λ path. Some (path_text path) };

    fn fmt<W: fmt::Write>(&self, f: &mut fmt::Formatter<W>) -> fmt::Result {
        match self {
            Path::Checkpoint => f.write_str("checkpoint"),
            Path::Tile {
                level,
                index,
                width,
            } => {
                let level = *level;
                write!(f, "tile/{level}/")?;
                write_place(f, *index, *width)
            }
            Path::Entries { index, width } => {
                f.write_str("tile/entries/")?;
                write_place(f, *index, *width)
            }
        }
    }
}

fn write_place<W: fmt::Write>(f: &mut fmt::Formatter<W>, index: u64, width: u32) -> fmt::Result
    ensures { WritesOnOk W.write_str_gives f.old result (index_text index ++ width_text width)
        f.new }
{
    write_groups(f, index / 1000)?;
    write_three(f, index)?;
    write_width(f, width)
}

// Writes the width of a partial tile or bundle, and nothing for a full one.
fn write_width<W: fmt::Write>(f: &mut fmt::Formatter<W>, width: u32) -> fmt::Result
    ensures { WritesOnOk W.write_str_gives f.old result (width_text width) f.new }
{
    if width == 256 {
        return Ok(());
    }
    write!(f, ".p/{width}")
}

// Writes the groups of an index before the last; 0 has no group.
fn write_groups<W: fmt::Write>(f: &mut fmt::Formatter<W>, number: u64) -> fmt::Result
    ensures { WritesOnOk W.write_str_gives f.old result (groups_text number) f.new }
{
    if number == 0 {
        return Ok(());
    }
    write_groups(f, number / 1000)?;
    f.write_str("x")?;
    write_three(f, number)?;
    f.write_str("/")
}

fn write_three<W: fmt::Write>(f: &mut fmt::Formatter<W>, number: u64) -> fmt::Result
    ensures { WritesOnOk W.write_str_gives f.old result (three_digits number) f.new }
{
    write_digit(f, number / 100 % 10)?;
    write_digit(f, number / 10 % 10)?;
    write_digit(f, number % 10)
}

fn write_digit<W: fmt::Write>(f: &mut fmt::Formatter<W>, digit: u64) -> fmt::Result
    requires { digit < 10 }
    ensures { WritesOnOk W.write_str_gives f.old result ((48 + digit) ∷ []) f.new }
{
    write!(f, "{digit}")
}
