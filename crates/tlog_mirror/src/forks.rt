//! Forks: pairs of tree heads that one log, which only grows, cannot both have made.
ghost use Rattle.std.specs.Prelude.{IfOk};
ghost use Rattle.mirror_model.specs.Reports.{ReportsForks};
ghost use Rattle.tlog_mirror.specs.ForksWritten.{WritesForks};

use crate::heads::points_of;
use crate::mirror::Mirror;
use crate::{forks_of, write_forks};
use byte_streams::StreamFault;
use mirror_model::Fork;
use std::alloc::{AllocError, Global};
use std::io::Write;
use tlog_hash::TreeHash;

impl<H: TreeHash> Mirror<H> {
    /// The forks: each pair of tree heads that one log, which only grows, cannot both have made, once. They are in
    /// order of the smaller tree head and then the larger one. The two have one size and different roots, or both are
    /// complete and neither list of entries is a prefix of the other (RFC 6962, section 2.1.2).
    ///
    /// It compares hashes of held nodes, and hashes nothing.
    ///
    /// # Errors
    ///
    /// Memory was refused.
    pub fn forks(&self, alloc: Global) -> Result<Vec<Fork>, AllocError>
        ensures { IfOk result (λ forks. ReportsForks H.digest self.now.view forks.items) }
    {
        let points = match points_of(alloc, self.kept.as_slice()) {
            Ok(points) => points,
            Err(fault) => return Err(fault),
        };
        forks_of(alloc, &self.strings, &self.known, points.as_slice())
    }

    /// Writes the forks in the order of `forks`, a line each, the smaller tree head first: `fork SIZE ROOT SIZE ROOT`.
    /// It returns whether there is a fork, and writes nothing if there is none.
    ///
    /// It writes each line as it makes it. Memory is needed for each tree head and not for each fork, and before the
    /// first byte is written. It does not flush.
    ///
    /// ```text
    /// let forked = mirror.write_forks(alloc, &mut output)?;
    /// ```
    ///
    /// # Errors
    ///
    /// `OutOfMemory` if memory was refused: nothing was written. `WriteFault` if a write failed or took no byte: a
    /// prefix of the lines was written. There is no other fault.
    pub fn write_forks<W: Write>(&self, alloc: Global, output: &mut W) -> Result<bool, StreamFault>
        ensures { WritesForks H.digest self.now.view (W.contents output.old) (W.contents output.new)
            result }
    {
        let points = match points_of(alloc, self.kept.as_slice()) {
            Ok(points) => points,
            Err(AllocError) => return Err(StreamFault::OutOfMemory),
        };
        write_forks(alloc, output, &self.strings, &self.known, points.as_slice())
    }
}
