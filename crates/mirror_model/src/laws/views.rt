//! Laws of views.
ghost use Rattle.mirror_model.specs.HeadLaws.{NoteIsOneHead};
ghost use Rattle.mirror_model.specs.UnionLaws.{MutualSubviewsAreEqual, UnionAssociates, UnionClashes, UnionClashesEitherWay, UnionCommutes, UnionIsClean, UnionIsIdempotent};
ghost use Rattle.mirror_model.specs.CompleteLaws.{CompleteKeepsItsList, CompleteStays, CompleteListHasRoot, CompleteListIsOne};
ghost use Rattle.mirror_model.specs.ForkLaws.{ForksStay, ForkMeansNoPrefix, ForkIsUnordered};
ghost use Rattle.mirror_model.specs.LawfulLaws.{HeadsHaveEdges, NothingIsLawful, PlusIsLawful, UnionIsLawful};
ghost use Rattle.mirror_model.specs.MarkLaws.{MarksStay, WholeListIsMark};
ghost use Rattle.mirror_model.specs.ReplyLaws.{RangeHashIsOne, ReplyIsOne, ServedIsOne, ServedRootIsTreeHash, ServedWhereComplete};

/// Views that hold the same are equal. The union of views of one origin does not depend on their order, grouping or
/// repetition. A union collides in either order or in neither. If neither view collides alone, the union collides exactly if
/// a string of one shares its digest with another string of the other.
pub fn union_law()
    ensures same { MutualSubviewsAreEqual }
    ensures commutes { UnionCommutes }
    ensures associates { UnionAssociates }
    ensures repeats { UnionIsIdempotent }
    ensures either_way { UnionClashesEitherWay }
    ensures clashes { UnionClashes }
    ensures clean { UnionIsClean }
{}

/// In a lawful view, a size and root have at most one list of entries, and the root is its tree hash.
pub fn one_list_law()
    ensures one { CompleteListIsOne }
    ensures root { CompleteListHasRoot }
{}

/// A complete tree head stays complete when a view grows, with the same entries as long as no two strings collide.
pub fn growth_law()
    ensures stays { CompleteStays }
    ensures same { CompleteKeepsItsList }
{}

/// The served checkpoint has the length and the tree hash of the served entries. A lawful view serves at most one checkpoint
/// and one list of entries. It has at most one reply for a path and one hash for a range. It serves a checkpoint exactly if
/// some tree head is complete.
pub fn served_law()
    ensures truth { ServedRootIsTreeHash }
    ensures one { ServedIsOne }
    ensures reply { ReplyIsOne }
    ensures range { RangeHashIsOne }
    ensures some { ServedWhereComplete }
{}

/// Two different complete checkpoints of a lawful view are a fork exactly if neither list of entries is a prefix of the
/// other. The fork is the same in either order, and remains one when the view grows.
pub fn forks_law()
    ensures tell { ForkMeansNoPrefix }
    ensures turn { ForkIsUnordered }
    ensures stay { ForksStay }
{}

/// An empty view is lawful. A lawful view stays lawful when it takes a valid item, or is merged with a lawful view of the
/// same log, if no two strings collide. The right edge of each of its tree heads is held.
pub fn lawful_law()
    ensures nothing { NothingIsLawful }
    ensures item { PlusIsLawful }
    ensures views { UnionIsLawful }
    ensures heads { HeadsHaveEdges }
{}

/// The marks that a mirror may remember: the whole list of each complete tree head, and each mark of a smaller view.
pub fn marks_law()
    ensures whole { WholeListIsMark }
    ensures stay { MarksStay }
{}

/// A note is a tree head of at most one origin, size and root.
pub fn head_law()
    ensures { NoteIsOneHead }
{}
