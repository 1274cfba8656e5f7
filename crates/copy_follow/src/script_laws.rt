//! Laws of places that answer from scripts.
ghost use Rattle.copy_follow.specs.HonestForks.{LogScriptPlacesAreWhole, WholePlacesContradict};
ghost use Rattle.copy_follow.specs.HonestHeads.{NotedPlacesLead, ScriptsMakeHonestRuns};
ghost use Rattle.copy_follow.specs.LogScripts.{LogScriptsAreWhole, LogScriptsSuffice};
ghost use Rattle.copy_follow.specs.ScriptExamples.{LiarsAreAllowed};
ghost use Rattle.copy_follow.specs.Scripted.{FilesAreClearOrClash, ScriptsAreClear};

use mirror_sources::Source;

/// What `follow` and `repair_copy` want of the answers that may come can be had beside places that lie. One place gives only true files of a
/// log of some entries. Each place gives files from a finite list: any bytes, and several files for one path. Or it says that it has none.
/// The shelf records its puts. Premise: no two different strings of the tree of the first entries, and of the finitely many strings that the
/// files on the shelf and those of all places lead to, share a digest. Either this holds, or two of these strings do.
pub fn script_law<S: Source>()
    ensures clear { ScriptsAreClear S.may_answer }
    ensures clash { FilesAreClearOrClash }
{}

/// For each log there is a finite list of files with which a place is the honest one of `script_law`, whatever the lists of the others have:
/// the note of its checkpoint, and all tiles and bundles that its entries determine. This list is the log's script.
pub fn log_script_law()
    ensures suffices { LogScriptsSuffice }
    ensures whole { LogScriptsAreWhole }
{}

/// A larger candidate is contradicted, as `larger_fork_law` wants it, if one place may give nothing but the true file for each path of its
/// log, and did not fail. The others may answer anything. Premises: the smaller list is no prefix of the larger one, and no two different
/// strings of its tree, and of that of as many of the larger one's entries, share a digest. A place with the script of the log that never
/// failed is such a place.
pub fn whole_place_law<S: Source>()
    ensures contradicts { WholePlacesContradict S.may_answer S.failed S.asked }
    ensures scripts { LogScriptPlacesAreWhole }
{}

/// The greatest candidate is the checkpoint of one place, as `follow` wants it, if that place may give no other note, did not fail, and was
/// not given up. The others may give any notes that do not open, and those of the first entries of the same log that are not larger. With
/// `script_law` this is all that `suffices` of `follow` wants of the places, but that there are candidates.
pub fn noted_place_law<S: Source>()
    ensures leads { NotedPlacesLead S.may_answer }
    ensures runs { ScriptsMakeHonestRuns S.may_answer }
{}

/// An example, under the test digest: one of two places gives the files of another log, and the other one is honest.
pub fn liar_example()
    ensures { LiarsAreAllowed }
{}
