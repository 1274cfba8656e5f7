//! Which tree heads are complete.
ghost use Rattle.std.specs.Prelude.{◌≡◌, map, All, IfOk};
ghost use Rattle.mirror_model.specs.Reports.{head_point};
ghost use Rattle.mirror_trees.specs.HeldTrees.{AreKnown};
ghost use Rattle.mirror_trees.specs.Marked.{point_of};
ghost use Rattle.tlog_mirror.specs.Points.{IsBuiltFlag};

use mirror_model::Head;
use mirror_trees::{HeldTrees, is_built};
use node_store::Store;
use std::alloc::{AllocError, Global};
use tlog_hash::{Hash, TreeHash};

/// The tree heads of these sizes and roots, each with whether its tree is held.
///
/// ```text
/// flag_heads(alloc, &store, &known, &[(3, root)])?   // [Head { size: 3, root, complete: true }]
/// ```
///
/// # Errors
///
/// Memory was refused.
pub fn flag_heads<H: TreeHash>(
    alloc: Global,
    store: &Store<H>,
    known: &HeldTrees,
    points: &[(u64, Hash)],
) -> Result<Vec<Head>, AllocError>
    requires { AreKnown H.digest store.now known.now }
    ensures points { IfOk result (λ heads. map head_point heads.items ≡ map point_of points.now) }
    ensures flags { IfOk result (λ heads. All (IsBuiltFlag H.digest store.now) heads.items) }
{
    let mut heads = Vec::with_capacity(alloc, points.len())?;
    for point in points {
        heads.push(flag_head(store, known, point.0, &point.1))?;
    }
    Ok(heads)
}

// A size and root with whether its tree is held.
fn flag_head<H: TreeHash>(store: &Store<H>, known: &HeldTrees, size: u64, root: &Hash) -> Head
    requires { AreKnown H.digest store.now known.now }
    ensures point { head_point result ≡ record { size = size; root = root.now } }
    ensures flag { IsBuiltFlag H.digest store.now result }
{
    let complete = is_built(store, known, size, root);
    let root = *root;
    Head {
        size,
        root,
        complete,
    }
}
