//! Properties of loaded states, as laws of the definitions that the contracts cite.
//!
//! A law is the contract of a function with an empty body: it consists of its proof.
ghost use Rattle.mirror_files.specs.LoadLaws.{LoadsHaveOneAnswer, OldIsSavedAsNew, SavedIsLoaded, TextsAreLoaded};

/// All the bytes of a reader have one answer of a loader, apart from failed reads and refused memory: the refusals
/// exclude one another.
pub fn load_law()
    ensures { LoadsHaveOneAnswer }
{}

/// Let the bytes be a state text, of either version, of a lawful view of the origin, and let its notes open under the
/// keys. Then a loader gives that view, and no other answer.
pub fn loaded_text_law()
    ensures { TextsAreLoaded }
{}

/// Loading a saved text gives the same view, under keys that open all held notes.
pub fn saved_law()
    ensures { SavedIsLoaded }
{}

/// A view that was loaded from version 1 is saved as version 2 of the same view.
pub fn old_state_law()
    ensures { OldIsSavedAsNew }
{}
