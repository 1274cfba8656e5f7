//! The missing paths of a tree head.
ghost use Rattle.std.specs.Prelude.{IfOk, IfSome, IfNone};
ghost use Rattle.mirror_model.specs.Heads.{HasHead};
ghost use Rattle.mirror_model.specs.Listed.{ListsMissing};
ghost use Rattle.tlog_mirror.specs.MissingWritten.{WritesMissing};

use crate::mirror::Mirror;
use crate::write_missing;
use byte_streams::StreamFault;
use mirror_trees::{first_with, missing_of};
use std::alloc::{AllocError, Global};
use std::io::Write;
use tlog_hash::{Hash, TreeHash};
use tlog_tiles::Path;

impl<H: TreeHash> Mirror<H> {
    /// The missing paths of the tree head with that size and root: those of the nodes where the walk from its root
    /// fails. Tiles come by falling level and rising index, then bundles by rising index, each once. The list is empty
    /// exactly if the tree head is complete. `None` exactly if no held note has that size and root.
    ///
    /// # Errors
    ///
    /// Memory was refused.
    pub fn missing(
        &self,
        alloc: Global,
        size: u64,
        root: &Hash,
    ) -> Result<Option<Vec<Path>>, AllocError>
        ensures head { IfOk result (λ o. IfSome o (λ paths. HasHead self.now.view size root.now)) }
        ensures some { IfOk result
            (λ o. IfSome o (λ paths. ListsMissing H.digest self.now.view size root.now
            paths.items)) }
        ensures none { IfOk result (λ o. IfNone o (¬ HasHead self.now.view size root.now)) }
    {
        if first_with(self.kept.as_slice(), size, root).is_none() {
            return Ok(None);
        }
        match missing_of(alloc, &self.strings, &self.known, size, root) {
            Ok(paths) => Ok(Some(paths)),
            Err(fault) => Err(fault),
        }
    }

    /// Writes the missing paths of a tree head in the order of `missing`, a line each. It returns whether a path is
    /// missing, and `None` exactly if no held note has that size and root.
    ///
    /// It writes each line as it finds it. Memory is needed for each tree and not for each path, and before the first
    /// byte is written. So it starts to write at once even a list that is too large for memory. It does not flush.
    ///
    /// ```text
    /// let partial = mirror.write_missing(alloc, 3, &root, &mut output)?;
    /// ```
    ///
    /// # Errors
    ///
    /// `OutOfMemory` if memory was refused: nothing was written. `WriteFault` if a write failed or took no byte: a
    /// prefix of the lines was written. There is no other fault.
    pub fn write_missing<W: Write>(
        &self,
        alloc: Global,
        size: u64,
        root: &Hash,
        output: &mut W,
    ) -> Result<Option<bool>, StreamFault>
        ensures { WritesMissing H.digest self.now.view size root.now (W.contents output.old)
            (W.contents output.new) result }
    {
        if first_with(self.kept.as_slice(), size, root).is_none() {
            return Ok(None);
        }
        match write_missing(alloc, output, &self.strings, &self.known, size, root) {
            Ok(any) => Ok(Some(any)),
            Err(fault) => Err(fault),
        }
    }
}
