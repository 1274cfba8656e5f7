//! The headline: mirrors agree, and their answers are true.
ghost use Rattle.mirror_model.specs.RunLaws.{ForMirrors};
ghost use Rattle.mirror_model.specs.Headline.{MirrorsAgree, NoPlayClashes, NoPlayToRetry, PartIsPlayed, PartIsRetried, PlaysAreOneRun, PlaysBring, PlaysGrow, PlaysKeepEntries, PlaysTellTruth, RetriedInEachPlay, RetriedRunLeaves, RunIsOnePlay, SameReachedSameView};

/// The headline, over any number of mirrors of one origin, in one play or in several.
///
/// Two mirrors hold equal views, if the same valid items, and the same strings and notes of opening views, reached both.
/// Each view is then the union of everything that reached it. There are two premises. First, no two different strings of the
/// opening views and of the valid items share a digest, or no event was answered by a collision. Second, the same event
/// directly follows an event that ran out of memory, in the same play or as the first of the next. The laws below do not
/// need the second premise.
///
/// As long as no two different strings of the opening views and of the valid items share a digest, no event is answered by a
/// collision.
///
/// From lawful views, for all strings, three laws hold. The served checkpoint has the length and the tree hash of exactly
/// the served entries. Two different complete checkpoints are a fork exactly if neither list of entries is a prefix of the
/// other. A complete checkpoint has no other entries later.
///
/// From any views, a complete checkpoint stays complete, and a fork stays a fork.
pub fn headline_law()
    ensures agree { ForMirrors MirrorsAgree }
    ensures no_clash { ForMirrors NoPlayClashes }
    ensures same { ForMirrors SameReachedSameView }
    ensures union { ForMirrors PlaysBring }
    ensures truth { PlaysTellTruth }
    ensures growth { PlaysGrow }
    ensures entries { PlaysKeepEntries }
{}

/// Plays in order are one run, and a run is one play. So the headline holds for takes and merges that are called one by one.
/// In all plays, each event that ran out of memory is repeated, if each play repeats its own, or if no event ran out of
/// memory.
pub fn plays_law()
    ensures one_run { PlaysAreOneRun }
    ensures one_play { RunIsOnePlay }
    ensures leaves { ForMirrors RetriedRunLeaves }
    ensures each { RetriedInEachPlay }
    ensures none { NoPlayToRetry }
{}

/// A play of some mirrors is a play of all: it leaves the others unchanged. So consecutive plays may be of different
/// mirrors.
pub fn part_law()
    ensures played { PartIsPlayed }
    ensures retried { PartIsRetried }
{}
