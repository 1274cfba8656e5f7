//! The partial bundle at the right edge of a tree, from a place.
ghost use Rattle.std.specs.Prelude.{◌≡◌, ◌≢◌, ◌↔◌, ◌<◌, ◌≤◌, ℕ, List, IfNone, IfOk, IfSome, IsSome, IsTrue, Some, length, option_map};
ghost use Rattle.log_reader.specs.Verified.{HasLeaves};
ghost use Rattle.mirror_model.specs.TrueLaws.{AreShort};
ghost use Rattle.copy_places.specs.Asked.{IsPathOrFull};
ghost use Rattle.copy_places.specs.AskedOnce.{AsksOnce, IsAtPlace};
ghost use Rattle.copy_places.specs.Giving.{MayGive, PartOf};
ghost use Rattle.copy_places.specs.InVain.{ArePartsAskedInVain, AtPlace, IsPartAskedInVain};
ghost use Rattle.copy_places.specs.PlaceGets.{AreBlamed, AsksPlaces, IsBlamed};
ghost use Rattle.copy_places.specs.TrueAnswers.{HasTrueLeaves};
ghost use Rattle.copy_places.specs.TruePlaces.{HasTruePlace, IsTruePlace};
ghost use Rattle.mirror_sources.specs.Files.{full_of};

use crate::place::Wrong;
use crate::place_files::get_partial;
use crate::places::{Places, in_turn};
use log_reader::leaves_of;
use mirror_sources::Source;
use std::alloc::{AllocError, Global};
use tlog_hash::{Hash, TreeHash};
use tlog_tiles::Path;

/// Whether two rows have the same hashes.
pub(crate) fn is_same_row(first: &[Hash], second: &[Hash]) -> bool
    ensures { IsTrue result ↔ (first.now ≡ second.now) }
{
    first == second
}

/// These bytes, if they are a bundle with these leaf hashes.
///
/// # Errors
///
/// `AllocError`: memory was refused.
pub fn accept_bundle<H: TreeHash>(
    alloc: Global,
    row: &[Hash],
    given: Option<Vec<u8>>,
) -> Result<Option<Vec<u8>>, AllocError>
    requires { length row.now ≤ 256 }
    ensures found { IfOk result (λ found. IfSome found
        (λ bytes. HasLeaves H.digest (length row.now) bytes.items row.now)) }
    ensures given { IfOk result (λ found. IfSome found (λ bytes. option_map
        (λ v. v.items) given ≡ Some bytes.items)) }
    ensures none { IfOk result (λ found. IfNone found (IfSome given
        (λ bytes. ¬ HasLeaves H.digest (length row.now) bytes.items row.now))) }
{
    let Some(bytes) = given else {
        return Ok(None);
    };
    match leaves_of::<H>(alloc, row.len() as u32, &bytes)? {
        Some(leaves) => {
            if is_same_row(&leaves, row) {
                Ok(Some(bytes))
            } else {
                Ok(None)
            }
        }
        None => Ok(None),
    }
}

// The bundle from a place, if it verifies.
fn bundle_at_place<H: TreeHash, S: Source + Drop>(
    alloc: Global,
    places: &mut Places<S>,
    index: usize,
    path: &Path,
    row: &[Hash],
) -> Result<Option<Vec<u8>>, AllocError>
    requires place { index < length places.old.list.items }
    requires width { length row.now ≤ 256 }
    ensures asks { AsksPlaces S.may_answer S.failed S.asked (IsPathOrFull path.now)
        places.old places.new }
    ensures once { path.now ≢ full_of path.now
        → AsksOnce S.asked (IsAtPlace index (IsPathOrFull path.now)) places.old places.new }
    ensures found { IfOk result (λ found. IfSome found
        (λ bytes. HasLeaves H.digest (length row.now) bytes.items row.now)) }
    ensures taken { IfOk result (λ found. IfSome found
        (λ bytes. PartOf (MayGive S.may_answer places.old) path.now bytes.items)) }
    ensures honest { IfOk result (λ found. IfNone found ((entries : List (List ℕ))
        → AreShort entries → HasTrueLeaves H.digest entries path.now row.now
        → ¬ IsTruePlace H.digest entries S.may_answer places.old places.new index)) }
    ensures none { IfOk result (λ found. IfNone found (AtPlace S.may_answer places.old places.new
        index (IsPartAskedInVain path.now
        (λ bytes. HasLeaves H.digest (length row.now) bytes row.now)))) }
    ensures blamed { IfOk result (λ found. IfNone found (IsBlamed places.old places.new index)) }
{
    let Some(bytes) = get_partial::<S>(alloc, places, index, path)? else {
        return Ok(None);
    };
    let found = accept_bundle::<H>(alloc, row, Some(bytes))?;
    if found.is_some() {
        places.note_verified(index);
    } else {
        places.note_wrong(index, path, Wrong::False);
    }
    Ok(found)
}

/// The partial bundle at that path, from the first place whose bundle has these leaf hashes. The place whose bytes verified last is asked
/// first, then the others in order. A bundle that a place lacks is cut from its full bundle. None: no place gave the bundle. Then its path
/// is `places.lacked()`.
///
/// ```text
/// bundle_at_places::<Sha256Tree, ListSource<Sha256Tree>>(alloc, &mut places, &path, edge.row(0))? // Some(bytes)
/// ```
///
/// # Errors
///
/// `AllocError`: memory was refused.
pub fn bundle_at_places<H: TreeHash, S: Source + Drop>(
    alloc: Global,
    places: &mut Places<S>,
    path: &Path,
    row: &[Hash],
) -> Result<Option<Vec<u8>>, AllocError>
    requires { length row.now ≤ 256 }
    ensures asks { AsksPlaces S.may_answer S.failed S.asked (IsPathOrFull path.now)
        places.old places.new }
    ensures once { path.now ≢ full_of path.now
        → AsksOnce S.asked (λ k. IsPathOrFull path.now) places.old places.new }
    ensures found { IfOk result (λ found. IfSome found
        (λ bytes. HasLeaves H.digest (length row.now) bytes.items row.now)) }
    ensures taken { IfOk result (λ found. IfSome found
        (λ bytes. PartOf (MayGive S.may_answer places.old) path.now bytes.items)) }
    ensures honest { IfOk result (λ found. IfNone found ((entries : List (List ℕ))
        → AreShort entries → HasTrueLeaves H.digest entries path.now row.now
        → ¬ HasTruePlace H.digest entries S.may_answer places.old places.new)) }
    ensures none { IfOk result (λ found. IfNone found
        (ArePartsAskedInVain path.now S.may_answer places.old places.new
        (λ bytes. HasLeaves H.digest (length row.now) bytes row.now))) }
    ensures lacked { IfOk result (λ found. IfNone found (IsSome places.new.lacked)) }
    ensures named { IfOk result (λ found. IfNone found (places.new.lacked ≡ Some path.now)) }
    ensures blamed { IfOk result (λ found. IfNone found (AreBlamed places.old places.new)) }
{
    let first = places.first();
    for turn in 0..places.len() {
        let index = in_turn(first, turn);
        match bundle_at_place::<H, S>(alloc, places, index, path, row)? {
            Some(found) => return Ok(Some(found)),
            None => {}
        }
    }
    places.note_lacked(path);
    Ok(None)
}
