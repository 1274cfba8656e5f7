//! A proof is checked before it is returned.
ghost use Rattle.std.specs.Prelude.{◌≡◌, IfErr, IfOk};
ghost use Rattle.tlog_proof.specs.Made.{Holds};
ghost use Rattle.log_reader.specs.declared.fault.ReadFault.TheVariants.{Collision};

use crate::fault::ReadFault;
use tlog_hash::TreeHash;
use tlog_proof::{Proof, holds};

/// The proof, if it holds.
pub(crate) fn checked<H: TreeHash>(proof: Proof) -> Result<Proof, ReadFault>
    ensures ok { IfOk result (λ same. (same ≡ proof) × Holds H.digest same) }
    ensures err { IfErr result (λ fault. (fault ≡ Collision) × (¬ Holds H.digest proof)) }
{
    if holds::<H>(&proof) {
        Ok(proof)
    } else {
        Err(ReadFault::Collision)
    }
}
