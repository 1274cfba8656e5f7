//! Laws of the front: the paths to fetch next.
ghost use Rattle.mirror_model.specs.TreeLaws.{BundleRoundCompletes, FrontIsBelowTop, FrontIsEmpty, MissingIsFront, MissingIsOfSize, RoundGoesDown, RoundLeavesSmallNodes, EnoughRoundsComplete, WalkIsFront};

/// The front of at most `256^8` entries is empty exactly if all strings of their tree are held.
pub fn front_law()
    ensures { FrontIsEmpty }
{}

/// The result of rounds of fetching. Before a round, the strings of the right edge are held; it loses no string, and adds
/// the strings of the true bytes of all paths of the front. For at most `256^8` entries, each round requests tiles of lower
/// levels than the one before, and after a round of bundles alone the whole tree is held. For fewer entries, the whole tree
/// is held after `max(1, top)` rounds, with `top` as the greatest level of the edge.
pub fn rounds_law()
    ensures leaves { RoundLeavesSmallNodes }
    ensures down { RoundGoesDown }
    ensures complete { BundleRoundCompletes }
    ensures first { FrontIsBelowTop }
    ensures number { EnoughRoundsComplete }
{}

/// If a list of entries has the size and the root, and its tree does not collide with the held strings, the walk from the
/// root finds its front. The next law needs no such list. For a size of at most `256^8`, the walk finds only full tiles of
/// levels 1 to 7, and bundles as wide as the size allows. They begin within the size. By `missing_law`, a tile for a tree
/// head of a lawful view is also within the size.
pub fn walk_law()
    ensures nodes { WalkIsFront }
    ensures paths { MissingIsFront }
    ensures kinds { MissingIsOfSize }
{}
