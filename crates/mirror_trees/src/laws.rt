//! Laws of the remembered points, and of prefixes.
//!
//! A law is the contract of a function with an empty body: it consists of its proof.
ghost use Rattle.mirror_trees.specs.HeldTrees.{RememberedIsHeld};
ghost use Rattle.mirror_trees.specs.Prefixes.{ForksGoOn, PrefixOfPrefix};
ghost use Rattle.mirror_trees.specs.Slices.{MarksAreSlices, SettledStays};

/// The trees that a sound mirror remembers are held.
pub fn known_law()
    ensures { RememberedIsHeld }
{}

/// If a list is no longer than a prefix of another list, it is a prefix of that list exactly if it is a prefix of that
/// prefix.
pub fn prefix_of_prefix_law()
    ensures { PrefixOfPrefix }
{}

/// Take complete tree heads by rising size. If the entries of one are a prefix of those of the next, the next is a fork
/// of the same earlier tree heads. So on a log that only grows, one test for each tree head finds that there is no
/// fork.
pub fn forks_go_on_law()
    ensures { ForksGoOn }
{}

/// Points that were remembered for held trees stay right if more strings are held, while no two strings collide.
pub fn settled_law()
    ensures { SettledStays }
{}

/// The points that may be remembered for a view are the slices of the trees of its tree heads, if these are held.
pub fn slices_law()
    ensures { MarksAreSlices }
{}
