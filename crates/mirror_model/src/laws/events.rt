//! Laws of one event: its answer, and the view after it.
ghost use Rattle.mirror_model.specs.EventLaws.{BetweenIsLawful, RetriedEventIsOneEvent, EventGrows, EventsHaveOneAnswer, EventKeepsLawful, SelfMergeChangesNothing, RetriedMergeIsOneMerge, MergesGrow, MergesKeepLawful, RefusedMergeIsBetween, MergesHaveOneAnswer, NewNoteMeansWholeItem, RetriedTakeIsOneTake, TakesGrow, TakesKeepLawful, RefusedTakeIsBetween, TakesHaveOneAnswer};

/// A take or a merge, also at one mirror of a list, loses nothing from a view and keeps lawful views lawful.
pub fn event_law()
    ensures takes_grow { TakesGrow }
    ensures merges_grow { MergesGrow }
    ensures grows { EventGrows }
    ensures takes_lawful { TakesKeepLawful }
    ensures merges_lawful { MergesKeepLawful }
    ensures lawful { EventKeepsLawful }
{}

/// An event has one answer and one view after it, apart from `OutOfMemory`.
pub fn once_law()
    ensures takes { TakesHaveOneAnswer }
    ensures merges { MergesHaveOneAnswer }
    ensures event { EventsHaveOneAnswer }
{}

/// An event that ran out of memory and is repeated has the result of one event. A merge of a mirror with itself changes
/// nothing.
pub fn again_law()
    ensures takes { RetriedTakeIsOneTake }
    ensures merges { RetriedMergeIsOneMerge }
    ensures event { RetriedEventIsOneEvent }
    ensures itself { SelfMergeChangesNothing }
{}

/// The view after an event that ran out of memory is between the old view and the whole one. It is the old view if the event
/// would be refused or collide. After a take, it has a new note only if it has the whole item; after a merge, only if it has
/// all strings. So the view is lawful if the other two are.
pub fn refused_memory_law()
    ensures takes { RefusedTakeIsBetween }
    ensures merges { RefusedMergeIsBetween }
    ensures note { NewNoteMeansWholeItem }
    ensures lawful { BetweenIsLawful }
{}
