//! Laws of runs: the items that reach a mirror, and the views after a run.
ghost use Rattle.mirror_model.specs.RunLaws.{ForMirrors, MergeIsRun, NoneClashes, RunGrows, RunIsBounded, RunIsLawful, RunIsReached, RunsJoin, TakeIsRun};
ghost use Rattle.mirror_model.specs.RetryLaws.{IsAnsweredOutOfMemory, NoAnswerToRetry, NothingToRetry, RetriesJoin};
ghost use Rattle.mirror_model.specs.ReachLaws.{OpeningReachesGoByLast, ReachesGoByLast};

/// The items that reach a mirror, by the last event of a list: a take adds its item, a merge adds the items that reached its
/// source, and nothing else changes.
pub fn reaches_law()
    ensures items { ReachesGoByLast }
    ensures openings { OpeningReachesGoByLast }
{}

/// After a run of events over mirrors of one origin, a mirror's view is the union of the opening views and of the valid
/// items that reach it. The premises: no event was answered by a collision, and the same event follows each event that ran
/// out of memory. Without them, the view has everything that the events that were done bring to it, and only what they and
/// the events that ran out of memory bring.
pub fn run_law()
    ensures reached { ForMirrors RunIsReached }
    ensures bounded { ForMirrors RunIsBounded }
{}

/// No event of a run over mirrors of one origin is answered by a collision. The premise is that no two different strings of
/// the opening views and of the valid items share a digest.
pub fn clash_law()
    ensures { ForMirrors NoneClashes }
{}

/// A run keeps lawful views lawful, and only makes views grow.
pub fn keeping_law()
    ensures lawful { RunIsLawful }
    ensures grows { RunGrows }
{}

/// A take or a merge at one of several mirrors is a run of one event, by the contracts of these calls. Two runs in order are
/// one run. So takes and merges that are called one by one are a run.
pub fn join_law()
    ensures take { TakeIsRun }
    ensures merge { MergeIsRun }
    ensures runs { RunsJoin }
{}

/// If no event ran out of memory, none has to be repeated; this holds if no answer is `OutOfMemory`. A take or a merge ran
/// out of memory exactly if its answer was `OutOfMemory`. If each of two lists repeats its events that ran out of memory, so
/// do both as one list.
pub fn retry_law()
    ensures none { NothingToRetry }
    ensures answers { NoAnswerToRetry }
    ensures named { IsAnsweredOutOfMemory }
    ensures joined { RetriesJoin }
{}
