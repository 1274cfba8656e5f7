//! A full file that verifies, from a place.
ghost use Rattle.std.specs.Prelude.{◌≡◌, ◌<◌, ℕ, List, IfNone, IfOk, IfSome, IsSome, Some, get_or, length};
ghost use Rattle.mirror_model.specs.TrueLaws.{AreShort};
ghost use Rattle.log_reader.specs.Verified.{Verifies};
ghost use Rattle.copy_places.specs.Asked.{IsAskedInVain};
ghost use Rattle.copy_places.specs.AskedOnce.{AsksOnce, IsAtPlace};
ghost use Rattle.copy_places.specs.Giving.{MayGive};
ghost use Rattle.copy_places.specs.InVain.{AreAskedInVain};
ghost use Rattle.copy_places.specs.PlaceGets.{AreBlamed, AsksPlaces, IsBlamed};
ghost use Rattle.copy_places.specs.TruePlaces.{HasTruePlace, IsFileUnder};
ghost use Rattle.copy_places.specs.declared.place.Place.{Place};

use crate::ahead::expect_from;
use crate::place::{PlaceAnswer, Wrong};
use crate::places::{Places, in_turn};
use log_reader::{FullFile, verified};
use mirror_sources::Source;
use std::alloc::{AllocError, Global};
use tlog_hash::{Hash, TreeHash};
use tlog_tiles::Path;

/// A full file that verifies: its bytes and its row.
#[derive(Drop)]
pub struct Found {
    /// Its bytes.
    pub bytes: Vec<u8>,
    /// Its row: the hashes of a tile, or the leaf hashes of a bundle.
    pub row: Vec<Hash>,
}

/// These bytes, if they verify.
///
/// # Errors
///
/// `AllocError`: memory was refused.
pub fn accept_file<H: TreeHash>(
    alloc: Global,
    kind: FullFile,
    hash: &Hash,
    bytes: Vec<u8>,
) -> Result<Option<Found>, AllocError>
    ensures found { IfOk result (λ found. IfSome found
        (λ f. Verifies H.digest kind hash.now f.bytes.items f.row.items)) }
    ensures none { IfOk result (λ found. IfNone found ((row : List (List ℕ))
        → ¬ Verifies H.digest kind hash.now bytes.items row)) }
    ensures same { IfOk result (λ found. IfSome found (λ f. f.bytes.items ≡ bytes.items)) }
{
    match verified::<H>(alloc, kind, hash, &bytes)? {
        Some(row) => Ok(Some(Found { bytes, row })),
        None => Ok(None),
    }
}

// The file from a place, if it verifies.
fn file_at_place<H: TreeHash, S: Source + Drop>(
    alloc: Global,
    places: &mut Places<S>,
    index: usize,
    kind: FullFile,
    path: &Path,
    hash: &Hash,
) -> Result<Option<Found>, AllocError>
    requires { index < length places.old.list.items }
    ensures found { IfOk result (λ found. IfSome found
        (λ f. Verifies H.digest kind hash.now f.bytes.items f.row.items)) }
    ensures asks { AsksPlaces S.may_answer S.failed S.asked (λ p. p ≡ path.now)
        places.old places.new }
    ensures once { AsksOnce S.asked (IsAtPlace index (λ p. p ≡ path.now)) places.old places.new }
    ensures none { IfOk result (λ found. IfNone found ((d : Place S) → IsAskedInVain
        (S.may_answer (get_or places.old.list.items index d).source)
        (get_or places.old.list.items index d).failures (get_or places.new.list.items index d).failures
        path.now (λ bytes. (row : List (List ℕ)) × Verifies H.digest kind hash.now bytes row))) }
    ensures given { IfOk result (λ found. IfSome found
        (λ f. MayGive S.may_answer places.old path.now f.bytes.items)) }
    ensures blamed { IfOk result (λ found. IfNone found (IsBlamed places.old places.new index)) }
{
    match places.get(index, path)? {
        PlaceAnswer::File(bytes) => match accept_file::<H>(alloc, kind, hash, bytes)? {
            Some(found) => {
                places.note_verified(index);
                Ok(Some(found))
            }
            None => {
                places.note_wrong(index, path, Wrong::False);
                Ok(None)
            }
        },
        PlaceAnswer::NotFound => {
            places.note_wrong(index, path, Wrong::NotFound);
            Ok(None)
        }
        PlaceAnswer::Failed => Ok(None),
    }
}

/// The full file from the first place whose file verifies. The place whose bytes verified last is asked first, then the others in order.
/// The tree has `bundles` full bundles. Before a bundle is requested, a hint names it and the files after it (`expect`). None: no place
/// gave the file. Then its path is `places.lacked()`.
///
/// ```text
/// file_at_places::<Sha256Tree, ListSource<Sha256Tree>>(alloc, &mut places, FullFile::Bundle, &path, &hash, 1)? // Some(found)
/// ```
///
/// # Errors
///
/// `AllocError`: memory was refused.
pub fn file_at_places<H: TreeHash, S: Source + Drop>(
    alloc: Global,
    places: &mut Places<S>,
    kind: FullFile,
    path: &Path,
    hash: &Hash,
    bundles: u64,
) -> Result<Option<Found>, AllocError>
    ensures found { IfOk result (λ found. IfSome found
        (λ f. Verifies H.digest kind hash.now f.bytes.items f.row.items)) }
    ensures asks { AsksPlaces S.may_answer S.failed S.asked (λ p. p ≡ path.now)
        places.old places.new }
    ensures once { AsksOnce S.asked (λ k p. p ≡ path.now) places.old places.new }
    ensures given { IfOk result (λ found. IfSome found
        (λ f. MayGive S.may_answer places.old path.now f.bytes.items)) }
    ensures lacked { IfOk result (λ found. IfNone found (IsSome places.new.lacked)) }
    ensures named { IfOk result (λ found. IfNone found (places.new.lacked ≡ Some path.now)) }
    ensures honest { IfOk result (λ found. IfNone found ((entries : List (List ℕ))
        → AreShort entries → IsFileUnder H.digest entries kind path.now hash.now
        → ¬ HasTruePlace H.digest entries S.may_answer places.old places.new)) }
    ensures none { IfOk result (λ found. IfNone found
        (AreAskedInVain path.now S.may_answer places.old places.new
        (λ bytes. (row : List (List ℕ)) × Verifies H.digest kind hash.now bytes row))) }
    ensures blamed { IfOk result (λ found. IfNone found (AreBlamed places.old places.new)) }
{
    expect_from::<S>(alloc, places, path, bundles);
    let first = places.first();
    for turn in 0..places.len() {
        let index = in_turn(first, turn);
        match file_at_place::<H, S>(alloc, places, index, kind, path, hash)? {
            Some(found) => return Ok(Some(found)),
            None => {}
        }
    }
    places.note_lacked(path);
    Ok(None)
}
