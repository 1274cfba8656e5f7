//! Ranges whose hashes are all there, as ranges where a call may fail.
ghost use Rattle.std.specs.Prelude.{⊤};
ghost use Rattle.tlog_proof.specs.Ranges.{LacksRange};

use crate::may_ranges::MayRanges;
use crate::ranges::Ranges;
use tlog_hash::Hash;

/// The range is not within the list.
#[derive(Drop)]
pub(crate) struct NoRange;

/// A `Ranges` as a `MayRanges`.
#[derive(Drop)]
pub(crate) struct Sure<'a, R: Ranges> {
    pub(crate) ranges: &'a R,
}

impl<'a, R: Ranges> MayRanges for Sure<'a, R> {
    ghost use Rattle.std.specs.Prelude.{ℕ, List};

    type Fault = NoRange;

    ghost lists = { λ x. R.lists x.ranges.now };

    ghost digest = { R.digest };

    ghost node = { λ x start len. ⊤ };

    ghost steps = { λ x y. (entries : List (List ℕ)) → R.lists x.ranges.now entries
        → R.lists y.ranges.now entries };

    ghost why = { λ x y start len fault. LacksRange (R.lists x.ranges.now) start len };

    fn hash(&mut self, start: u64, len: u64) -> Result<Hash, NoRange> {
        match self.ranges.hash(start, len) {
            Some(hash) => Ok(hash),
            None => Err(NoRange),
        }
    }

    ghost once = { λ x entries listed. listed };

    ghost twice = { λ x y z p q entries listed. q entries (p entries listed) };

    ghost stays = { λ x y entries p listed. p entries listed };

    ghost node_stays = { λ x y start len p h. tt };

    ghost left = { λ x start len k two is h. tt };

    ghost right = { λ x start len k two is h. tt };

    ghost why_longer = { λ x y z start len fault p lacks entries listed.
        lacks entries (p entries listed) };
}
