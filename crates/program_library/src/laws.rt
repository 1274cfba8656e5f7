//! Laws of the keys of a run, and of the state that a pull leaves.
ghost use Rattle.program_library.specs.RunLaws.{PulledStatesAreLoaded, SignersAreKeys};

/// The key that `build` signs with is among the keys of the run, because both come from one key file. So this premise of
/// `BuildsFrom` holds in a run by `run`.
pub fn signing_key_law()
    ensures { SignersAreKeys }
{}

/// The state of a mirror after a pull loads as that mirror, for a complete pull and for one that ended early. So a pull
/// can go on after a pull with `--keep` that failed.
pub fn pulled_state_law()
    ensures { PulledStatesAreLoaded }
{}
