//! A shelf as a source.
ghost use Rattle.std.specs.Prelude.{◌≡◌, ◌<◌, All};

use mirror_folders::{ReadableShelf, ShelfError};
use mirror_sources::{Source, SourceFault};
use tlog_tiles::Path;

/// A source that gives the files of a shelf.
///
/// Contracts see the puts of the shelf (`files`), and that they are kept. A postcondition of a call that takes any source holds for the
/// shelf after the call.
///
/// ```text
/// let mut source = ShelfSource::new(&mut shelf);
/// source.get(&Path::Checkpoint)?   // the answer of shelf.read
/// ```
#[derive(Drop)]
pub struct ShelfSource<'a, D: ReadableShelf> {
    shelf: &'a mut D,
}

// Each element is a byte. The body does nothing: the contract states what follows from the type.
fn see_bytes(bytes: &[u8])
    ensures { All (λ byte. byte < 256) bytes.now }
{}

impl<'a, D: ReadableShelf> ShelfSource<'a, D> {
    /// A source over that shelf.
    pub fn new(shelf: &'a mut D) -> ShelfSource<'a, D>
        ensures same_reference { result.shelf.ghost_name ≡ shelf.entry.ghost_name }
        ensures now { result.shelf.now ≡ shelf.old }
    {
        ShelfSource { shelf }
    }
}

impl<'a, D: ReadableShelf> Source for ShelfSource<'a, D> {
    ghost use Rattle.copy_reader.specs.ShelfSources.{ShelfMayAnswer};

    ghost may_answer = { λ s. ShelfMayAnswer s.shelf.ghost_name (D.puts s.shelf.now) };

    ghost files = { λ s. D.puts s.shelf.now };

    ghost failed = { λ s. D.failed s.shelf.now };

    #[tactic(auto, using(crate::proofs::ShelfSources::stays_within))]
    fn get(&mut self, path: &Path) -> Result<Option<Vec<u8>>, SourceFault> {
        match self.shelf.read(path) {
            Ok(Some(bytes)) => {
                see_bytes(&bytes);
                Ok(Some(bytes))
            }
            Ok(None) => Ok(None),
            Err(ShelfError::Failed) => Err(SourceFault::Failed),
            Err(ShelfError::OutOfMemory) => Err(SourceFault::OutOfMemory),
        }
    }

    fn failures(&self) -> u64 {
        self.shelf.failures()
    }
}
