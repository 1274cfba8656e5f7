//! Tree heads compared with the served entries. This needs only the checkpoint, and not its entries.
ghost use Rattle.std.specs.Prelude.{map, IfOk, IfSome, IfNone, None};
ghost use Rattle.mirror_model.specs.Reports.{SaysServed};
ghost use Rattle.tlog_mirror.specs.Compared.{ReportsCompared, ReportsHeld};
ghost use Rattle.mirror_trees.specs.Marked.{point_of};

use crate::heads::points_of;
use crate::mirror::Mirror;
use crate::{Compared, compare_all};
use std::alloc::{AllocError, Global};
use tlog_hash::{Hash, TreeHash};

impl<H: TreeHash> Mirror<H> {
    /// Compares each of these sizes and roots with the served entries (RFC 6962, section 2.1), in order. `None` exactly
    /// if nothing is served. The mirror need not hold anything of a tree head: one hash over the served entries decides
    /// each.
    ///
    /// ```text
    /// mirror.compare(alloc, &[(400, root)])?   // Some([Fork { size: 400, root, own }])
    /// ```
    ///
    /// # Errors
    ///
    /// Memory was refused.
    pub fn compare(
        &self,
        alloc: Global,
        heads: &[(u64, Hash)],
    ) -> Result<Option<Vec<Compared>>, AllocError>
        ensures some { IfOk result
            (λ o. IfSome o (λ compared. ReportsCompared H.digest self.now.view
            (map point_of heads.now) compared.items)) }
        ensures none { IfOk result (λ o. IfNone o (SaysServed H.digest self.now.view None)) }
    {
        let Some(top) = self.top_ranges() else {
            return Ok(None);
        };
        match compare_all(alloc, &top, heads) {
            Ok(compared) => Ok(Some(compared)),
            Err(fault) => Err(fault),
        }
    }

    /// Compares each size and root of the held notes with the served entries, once, by size and then by the root's
    /// bytes. `None` exactly if nothing is served.
    ///
    /// ```text
    /// mirror.compare_heads(alloc)?   // Some([Same { size: 3, root }])
    /// ```
    ///
    /// # Errors
    ///
    /// Memory was refused.
    pub fn compare_heads(&self, alloc: Global) -> Result<Option<Vec<Compared>>, AllocError>
        ensures some { IfOk result
            (λ o. IfSome o (λ compared. ReportsHeld H.digest self.now.view compared.items)) }
        ensures none { IfOk result (λ o. IfNone o (SaysServed H.digest self.now.view None)) }
    {
        let heads = match points_of(alloc, self.kept.as_slice()) {
            Ok(heads) => heads,
            Err(fault) => return Err(fault),
        };
        self.compare(alloc, heads.as_slice())
    }
}
