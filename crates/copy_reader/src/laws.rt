//! Laws of the definitions that the contracts cite.
ghost use Rattle.copy_reader.specs.WholeCopies.{CopiesAreWhole};

/// A copy of `copy_follow` with all its files (`IsCopy`) is whole. So is one whose partial files were replaced by their full ones.
#[tactic(auto, using(crate::proofs::WholeLaws::copies_are_whole))]
pub fn whole_copies_law()
    ensures { CopiesAreWhole }
{}
