//! The environment of a command.
ghost use Rattle.std.specs.Prelude.{◌≡◌};

use std::alloc::Global;

/// The environment of a command: the runtime, named files, folders by their names, places, and borrowed standard streams. The
/// command borrows it as a whole.
///
/// ```text
/// let mut env = Env { rt: &rt, alloc, files, folders, places, input, output, errors };
/// run(&mut env, &words)? // 0, or 3 for no
/// env.files                   // as the command left them
/// ```
#[derive(Drop)]
pub struct Env<'r, 'i, 'o, 'e, R, F, D, P, I, O, E> {
    /// The runtime.
    pub rt: &'r R,
    /// The allocator.
    pub alloc: Global,
    /// The files that the words of the command name.
    pub files: F,
    /// The folders of logs that the words name.
    pub folders: D,
    /// What opens the places that the words name.
    pub places: P,
    /// Standard input.
    pub input: &'i mut I,
    /// Standard output.
    pub output: &'o mut O,
    /// Standard error.
    pub errors: &'e mut E,
}

impl<'r, 'i, 'o, 'e, R, F: Drop, D: Drop, P: Drop, I, O, E> Env<
    'r,
    'i,
    'o,
    'e,
    R,
    F,
    D,
    P,
    I,
    O,
    E,
> {
    /// Drops the files, folders and places. The streams do not change.
    pub fn let_go(self)
        ensures input { self.exit.1.1.1.1.1.0.now ≡ self.entry.input.now }
        ensures output { self.exit.1.1.1.1.1.1.0.now ≡ self.entry.output.now }
    {
        let Env {
            files,
            folders,
            places,
            input: _input,
            output: _output,
            errors: _errors,
            ..
        } = self;
        drop(files);
        drop(folders);
        drop(places);
    }
}
