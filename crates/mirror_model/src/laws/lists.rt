//! Laws of the lists that calls return.
ghost use Rattle.mirror_model.specs.Listed.{ForksAreListedOnce, FrontIsListedOnce, HeadsAreListedOnce, MissingIsListedOnce, NotesAreListedOnce};

/// A list of notes, tree heads, forks or paths in order, with each item once and nothing else, is unique.
pub fn lists_law()
    ensures notes { NotesAreListedOnce }
    ensures heads { HeadsAreListedOnce }
    ensures forks { ForksAreListedOnce }
    ensures missing { MissingIsListedOnce }
    ensures front { FrontIsListedOnce }
{}
