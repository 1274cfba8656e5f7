//! The command line of a command: its name, its help, and a table of its arguments.

/// The command line of one command.
pub struct CommandLine<'a> {
    /// The name of the command.
    pub name: &'a str,
    /// A line that says what it does.
    pub about: &'a str,
    /// The text of the long help after the arguments.
    pub help: &'a str,
    /// The arguments that it shares with other commands. They come first.
    pub base: Base,
    /// Its own arguments, in order.
    pub arguments: &'a [Argument<'a>],
}

/// The arguments that commands share.
#[derive(Drop, Clone, Copy)]
pub enum Base {
    /// No arguments.
    Nothing,
    /// The options of each command over a log: `--origin`, `--keys` and `--why`.
    Log,
    /// The options of `Log`, and the state.
    State,
    /// The options of `Log`, and a state or a copy.
    StateOrCopy,
    /// The options of `Log`, and the file for the new state.
    Output,
}

/// An argument of a command: its name, the name of its value in the help, and its help text.
pub enum Argument<'a> {
    /// `--NAME VALUE`, an option that must be given.
    Option(&'a str, &'a str, &'a str),
    /// `[--NAME VALUE]`, an option that may be missing.
    Choice(&'a str, &'a str, &'a str),
    /// `[--NAME]`, an option without a value.
    Flag(&'a str, &'a str),
    /// `VALUE`, a word without an option name, which must be given.
    Place(&'a str, &'a str, &'a str),
    /// `VALUE...`, any number of words without an option name.
    List(&'a str, &'a str, &'a str),
    /// `VALUE...`, at least one word without an option name.
    Words(&'a str, &'a str, &'a str),
}

/// The origin of the log, for each command over a log.
pub const ORIGIN: Argument<'static> = Argument::Option(
    "origin",
    "O",
    "The origin line of the log's checkpoints",
);

/// Whether a fault names the thing that it is about, for each command over a log.
pub const WHY: Argument<'static> = Argument::Flag(
    "why",
    "Say before a fault what it is about: a file, a reply, a word",
);

/// The state file to begin with, for a command that writes a state.
pub(crate) const FIRST_STATE: Argument<'static> = Argument::Choice(
    "state",
    "S",
    "The file of the state to begin with; nothing where it is left out",
);

/// Whether lines report the progress, for each command that may work for long.
pub(crate) const PROGRESS: Argument<'static> = Argument::Flag(
    "progress",
    "Reports progress on standard error, by a line a second at most",
);

/// The number of requests that may be sent ahead, for each command that reads a log at a place.
pub(crate) const AHEAD: Argument<'static> = Argument::Choice(
    "ahead",
    "N",
    "How many requests may be sent ahead to a server, 0 to 64; 6 where it is left out",
);

/// The number of seconds that a run waits for a busy server, for each command that reads a log at a place.
pub(crate) const WAIT: Argument<'static> = Argument::Choice(
    "wait",
    "SECONDS",
    "How long a run waits in all for one busy server, 0 to 86400; 60 where it is left out",
);
