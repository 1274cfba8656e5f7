//! The texts that report the state of a mirror.
ghost use Rattle.std.specs.Prelude.{IfOk, IfSome, IfNone, string_bytes};
ghost use Rattle.mirror_model.specs.Heads.{HasHead};
ghost use Rattle.mirror_model.specs.Texts.{IsForksText, IsMissingText, IsStatusText};

use crate::mirror::Mirror;
use crate::{forks_text, missing_text, status_text};
use std::alloc::{AllocError, Global};
use tlog_hash::{Hash, TreeHash};

impl<H: TreeHash> Mirror<H> {
    /// The origin, each tree head with its state, and the served checkpoint, a line each. The lines are `origin O`,
    /// `head SIZE ROOT complete` or `head SIZE ROOT partial`, and `served SIZE ROOT` or `served none`.
    ///
    /// # Errors
    ///
    /// Memory was refused.
    pub fn status_text(&self, alloc: Global) -> Result<String, AllocError>
        ensures { IfOk result (λ text. IsStatusText H.digest self.now.view (string_bytes text)) }
    {
        let heads = match self.heads(alloc) {
            Ok(heads) => heads,
            Err(fault) => return Err(fault),
        };
        status_text(alloc, self.origin(), heads.as_slice(), &self.served_point())
    }

    /// The forks, a line each, the smaller tree head first: `fork SIZE ROOT SIZE ROOT`. The text is empty if there is
    /// no fork.
    ///
    /// # Errors
    ///
    /// Memory was refused.
    pub fn forks_text(&self, alloc: Global) -> Result<String, AllocError>
        ensures { IfOk result (λ text. IsForksText H.digest self.now.view (string_bytes text)) }
    {
        let forks = match self.forks(alloc) {
            Ok(forks) => forks,
            Err(fault) => return Err(fault),
        };
        forks_text(alloc, forks.as_slice())
    }

    /// The missing paths of a tree head, a line each. `None` exactly if no held note has that size and root.
    ///
    /// # Errors
    ///
    /// Memory was refused.
    pub fn missing_text(
        &self,
        alloc: Global,
        size: u64,
        root: &Hash,
    ) -> Result<Option<String>, AllocError>
        ensures some { IfOk result
            (λ o. IfSome o (λ text. IsMissingText H.digest self.now.view size root.now
            (string_bytes text))) }
        ensures none { IfOk result (λ o. IfNone o (¬ HasHead self.now.view size root.now)) }
    {
        let paths = match self.missing(alloc, size, root) {
            Ok(Some(paths)) => paths,
            Ok(None) => return Ok(None),
            Err(fault) => return Err(fault),
        };
        match missing_text(alloc, paths.as_slice()) {
            Ok(text) => Ok(Some(text)),
            Err(fault) => Err(fault),
        }
    }
}
