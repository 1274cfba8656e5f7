//! The paths that a pull has requested.
ghost use Rattle.std.specs.Prelude.{◌≡◌, ◌↔◌, IsTrue, OnOk, OnErr, Contains, ◌++◌, ◌∷◌, []};

use std::alloc::{AllocError, Global};
use std::collections::HashSet;
use std::marker::Model;
use tlog_tiles::Path;

// The requested paths, in order and each once. The set has the same paths, so that a search is fast.
#[derive(Drop)]
pub(crate) struct AskedPaths {
    items: Vec<Path>,
    found: HashSet<Path>,
}

impl Model for AskedPaths {
    ghost use Rattle.std.specs.List.Sorted.{IsPermutation};
    ghost use Rattle.mirror_pull.specs.Asking.{PathList};

    ghost Value = { PathList };

    ghost view = { λ a. record { items = a.items.items } };

    ghost invariant = { λ a. IsPermutation a.items.items a.found.keys };
}

impl AskedPaths {
    // The empty list. It allocates no memory.
    pub(crate) fn new(alloc: Global) -> Self
        ensures items { result.items ≡ [] }
    {
        AskedPaths {
            items: Vec::new(alloc),
            found: HashSet::new(alloc),
        }
    }

    pub(crate) fn contains(&self, path: &Path) -> bool
        ensures { IsTrue result ↔ Contains self.now.items path.now }
    {
        self.found.contains(path)
    }

    // Adds a path that was not requested yet.
    pub(crate) fn push(&mut self, path: Path) -> Result<(), AllocError>
        requires { ¬ Contains self.old.items path }
        ensures items { OnOk result (self.new.items ≡ self.old.items ++ path ∷ []) }
        ensures err { OnErr result (self.new ≡ self.old) }
    {
        self.items.push(path)?;
        let Ok(_) = self.found.insert(path) else {
            let _ = self.items.pop();
            return Err(AllocError);
        };
        Ok(())
    }
}
