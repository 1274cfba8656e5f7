//! The edge files at a place.
ghost use Rattle.std.specs.Prelude.{◌≡◌, ◌≢◌, ◌<◌, IfNone, IfOk, IfSome, length, option_map};
ghost use Rattle.mirror_sources.specs.Files.{full_of};
ghost use Rattle.copy_places.specs.Asked.{IsPathOrFull};
ghost use Rattle.copy_places.specs.AskedOnce.{AsksOnce, IsAtPlace};
ghost use Rattle.copy_places.specs.PlaceGets.{AsksPlaces, IsBlamed};
ghost use Rattle.copy_places.specs.Giving.{MayGive, PartOf};
ghost use Rattle.copy_places.specs.InVain.{AtPlace, GivesCut, GivesPart};
ghost use Rattle.copy_places.specs.TrueAnswers.{FindsPart, FindsTrue};

use crate::place::{PlaceAnswer, Wrong};
use crate::places::Places;
use mirror_sources::Source;
use std::alloc::{AllocError, Global};
use tlog_tiles::Path;

// The partial file of that path, cut from the place's full file.
fn get_part<S: Source + Drop>(
    alloc: Global,
    places: &mut Places<S>,
    index: usize,
    path: &Path,
) -> Result<Option<Vec<u8>>, AllocError>
    requires { index < length places.old.list.items }
    ensures asks { AsksPlaces S.may_answer S.failed S.asked (λ p. p ≡ full_of path.now)
        places.old places.new }
    ensures once { AsksOnce S.asked (IsAtPlace index (λ p. p ≡ full_of path.now))
        places.old places.new }
    ensures taken { IfOk result (λ found. IfSome found
        (λ bytes. PartOf (MayGive S.may_answer places.old) path.now bytes.items)) }
    ensures honest { IfOk result (λ found. FindsPart S.may_answer places.old places.new index
        path.now (option_map (λ v. v.items) found)) }
    ensures gave { IfOk result (λ found. AtPlace S.may_answer places.old places.new index
        (GivesCut path.now (option_map (λ v. v.items) found))) }
    ensures blamed { IfOk result (λ found. IfNone found (IsBlamed places.old places.new index)) }
{
    let full_path = path.full();
    match places.get(index, &full_path)? {
        PlaceAnswer::File(full) => match path.cut(256, &full) {
            Some(part) => Ok(Some(Vec::from_slice(alloc, part)?)),
            None => {
                places.note_wrong(index, &full_path, Wrong::False);
                Ok(None)
            }
        },
        PlaceAnswer::NotFound => {
            places.note_wrong(index, path, Wrong::NotFound);
            Ok(None)
        }
        PlaceAnswer::Failed => Ok(None),
    }
}

/// The bytes of a partial file at a place. None: the place lacks it, or failed. A log may delete a partial file once it has the full one:
/// then the bytes are cut from the full file.
pub(crate) fn get_partial<S: Source + Drop>(
    alloc: Global,
    places: &mut Places<S>,
    index: usize,
    path: &Path,
) -> Result<Option<Vec<u8>>, AllocError>
    requires { index < length places.old.list.items }
    ensures asks { AsksPlaces S.may_answer S.failed S.asked (IsPathOrFull path.now)
        places.old places.new }
    ensures once { path.now ≢ full_of path.now
        → AsksOnce S.asked (IsAtPlace index (IsPathOrFull path.now)) places.old places.new }
    ensures taken { IfOk result (λ found. IfSome found
        (λ bytes. PartOf (MayGive S.may_answer places.old) path.now bytes.items)) }
    ensures honest { IfOk result (λ found. FindsTrue S.may_answer places.old places.new index
        path.now (option_map (λ v. v.items) found)) }
    ensures gave { IfOk result (λ found. AtPlace S.may_answer places.old places.new index
        (GivesPart path.now (option_map (λ v. v.items) found))) }
    ensures blamed { IfOk result (λ found. IfNone found (IsBlamed places.old places.new index)) }
{
    match places.get(index, path)? {
        PlaceAnswer::File(bytes) => Ok(Some(bytes)),
        PlaceAnswer::NotFound => get_part(alloc, places, index, path),
        PlaceAnswer::Failed => Ok(None),
    }
}
