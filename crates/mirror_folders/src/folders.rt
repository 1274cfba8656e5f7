//! Folders by their names.
use crate::shelf::ReadableShelf;
use std::alloc::AllocError;

/// A shelf for one folder at a time: the one that was opened last.
///
/// ```text
/// let mut shelf = DirShelf::new(&rt, alloc, ".");
/// shelf.open("log")?;
/// shelf.put(&Path::Checkpoint, note)?; // log/checkpoint
/// ```
pub trait NamedFolders: ReadableShelf {
    ghost use Rattle.std.specs.Prelude.{◌≡◌, ℕ, List, Option, None, IfErr, IfOk};
    ghost use Rattle.mirror_folders.specs.Shelf.{Put};

    /// The puts into the folder with a name, the oldest first, if the shelf records them.
    ghost held: { Self → List ℕ → Option (List Put) } = { λ _ _. None };

    /// Opens the folder with that name: later puts go there. The folder need not exist yet.
    ///
    /// # Errors
    ///
    /// Memory was refused. The folder that was open stays open.
    fn open(&mut self, name: &str) -> Result<(), AllocError>
        ensures opened { IfOk result (λ _. Self.puts self.new ≡ held self.old name.now) }
        ensures same { IfErr result (λ _. Self.puts self.new ≡ Self.puts self.old) }
        ensures counted { Self.failed self.new ≡ Self.failed self.old };
}
