//! Laws of refused items.
ghost use Rattle.mirror_model.specs.RefusalLaws.{BundlesAreJudged, HeadNotesAreReadOnce, HeadsAreJudged, OpenHeadsAreRead, TilesAreJudged};

/// An item is refused exactly if it is not valid, apart from `OutOfMemory`, and for only one reason. Reading a note as a
/// tree head has one answer, and the checkpoint has the size and root of the tree head.
pub fn refusals_law()
    ensures tiles { TilesAreJudged }
    ensures bundles { BundlesAreJudged }
    ensures heads { HeadsAreJudged }
    ensures notes { HeadNotesAreReadOnce }
    ensures open { OpenHeadsAreRead }
{}
