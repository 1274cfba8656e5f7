//! Small examples of the definitions.
ghost use Rattle.mirror_model.specs.Examples.{EdgesOfSizes, PartsOfThree, RootsOfRows, HasTileOutside, HashesDoNotTellForks, IsFrontOfThree, TreeOfThree, MergesLeadInOrder};
ghost use Rattle.mirror_model.specs.PlayExamples.{RetriesSpanPlays, RetryInNextPlayCounts, TwoCallsAreOneRun};
ghost use Rattle.mirror_model.specs.ViewExamples.{EmptyCountsForNothing, OneEntryIsServed};

/// The tree of three entries, the right edges of some sizes, and the roots of some edges, under a digest that is a sum.
pub fn trees_example()
    ensures three { TreeOfThree }
    ensures edges { EdgesOfSizes }
    ensures roots { RootsOfRows }
    ensures parts { PartsOfThree }
{}

/// Neither of two lists of entries is a prefix of the other, but the tree hash of the first equals that of the beginning of
/// the second.
pub fn fork_example()
    ensures { HashesDoNotTellForks }
{}

/// An item reaches a mirror by two merges in one order, but not in the other.
pub fn way_example()
    ensures { MergesLeadInOrder }
{}

/// Fronts if nothing is held. The front of three entries is their bundle. The front of 300 entries has a tile that is not
/// full in their tree, so the right edge has to be taken first.
pub fn front_example()
    ensures three { IsFrontOfThree }
    ensures outside { HasTileOutside }
{}

/// A mirror that opened empty and was merged with another has the same view as the other.
pub fn opening_example()
    ensures { EmptyCountsForNothing }
{}

/// A lawful view that holds a note of size 1 and the tree of one entry serves them.
pub fn served_example()
    ensures { OneEntryIsServed }
{}

/// If a take at the end of a play runs out of memory, the first take of the next play repeats it, and the headline applies
/// to both plays. It is not repeated if nothing follows or another event comes first.
pub fn retry_example()
    ensures spans { RetriesSpanPlays }
    ensures counts { RetryInNextPlayCounts }
{}

/// A take at one mirror and then a merge of it into another are one run.
pub fn calls_example()
    ensures { TwoCallsAreOneRun }
{}
