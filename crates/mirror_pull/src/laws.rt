//! Laws of honest rounds, of the number of rounds that a pull counts, of growth, and of repeated pulls.
ghost use Rattle.mirror_pull.specs.GrowthLaws.{PullsKeepHeads};
ghost use Rattle.mirror_pull.specs.Repeated.{PullsFetchFilesOnce};
ghost use Rattle.mirror_pull.specs.PullLaws.{HonestRoundIsRound, HonestRoundsAreFew, NoRoundAsksNothing};

/// A round of a pull from an honest source takes the front.
pub fn front_round_law()
    ensures { HonestRoundIsRound }
{}

/// An honest pull has at most `max(1, top)` rounds, if `top` is the greatest level with a partial tile.
pub fn front_rounds_law()
    ensures { HonestRoundsAreFew }
{}

/// A pull counts no rounds exactly if it requests nothing after the rows of the right edge.
pub fn no_round_law()
    ensures { NoRoundAsksNothing }
{}

/// After any pull, for every answer, complete tree heads stay complete with the same entries, and with no others as long as
/// nothing collides. A fork stays a fork.
pub fn pull_growth_law()
    ensures { PullsKeepHeads }
{}

/// Repeated pulls of one log fetch no file twice. Together they fetch at most as many files as the log has. So at most that
/// many pulls can fetch a file after the right edge before an honest source fails.
pub fn fetched_once_law()
    ensures { PullsFetchFilesOnce }
{}
