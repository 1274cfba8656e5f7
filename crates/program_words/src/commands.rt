//! The list of the commands. Each command has a file with its options, its command line, its help and its reader.
pub mod audit;
pub mod build;
pub mod check;
pub mod compare;
pub mod entries;
pub mod export;
pub mod follow;
pub mod forks;
pub mod merge;
pub mod missing;
pub mod notes;
pub mod prove;
pub mod pull;
pub mod root;
pub mod serve;
pub mod status;
pub mod take;

use crate::parts::{CopyArgs, StateArgs};

/// The version of the program, for `-V` and `--version`.
pub const VERSION: &str = "0.9.1";

/// The help of the program, for `-h` and `--help`.
pub const PROGRAM: &str = "\
A mirror for one append-only transparency log in the C2SP tlog-tiles layout

Usage: tlogmirror <COMMAND>

Follow a log of any size, in a folder that a web server can give out:
  follow   Brings the folder, a copy, to the newest checkpoint of some places, and verifies every file
  audit    Reads a whole log at a place, and verifies every file
Follow a log, in a state, which is one file and takes files in any order:
  pull     Fetches the newest checkpoint and what is missing of it, from a folder or over plain HTTP
  take     Takes a checkpoint, a tile or an entry bundle from files
  merge    Makes one mirror of two
  missing  Prints the paths that a checkpoint's tree lacks
  forks    Prints which checkpoints contradict each other
  export   Writes the log's files to a folder
  notes    Writes each signed note to a file of its own
Ask a copy or a state:
  status   Prints its checkpoints, which of them are complete, and which is served
  compare  Prints which checkpoints contradict what is served
  prove    Prints an inclusion or a consistency proof
  entries  Writes a range of entries
  serve    Answers over plain HTTP on 127.0.0.1
Without either:
  check    Reads a proof, and prints whether it holds
  build    Makes a log of entries, and signs its checkpoint
  root     Prints the tree hash of an entry bundle

Options:
  -h, --help     Print help; of a command -h prints its words, --help all of it
  -V, --version  Print version

Examples: tlogmirror follow --origin example.com/log --keys examples/log.keys --dir log dir examples/log
tlogmirror pull --origin example.com/log --keys examples/log.keys --out log.state dir examples/log

Exit status: 0 done, 1 a fault, 2 a usage error, 3 a no: the proof does not hold,
something is missing or partial, there are forks, nothing is complete, a checkpoint is larger.
A fault is one line on standard error, 'tlogmirror: NAME'. With '--why', which all but root and check have,
the line before it says what it is about. Those of files that most commands read:
  FileFault    a file that was named cannot be read or written: see the path and the rights
  BadKeyLine   a line of the key file is no key: 'hmac NAME ID SECRET' or 'pin NAME ID DIGEST'
  BadOrigin    the origin is empty, too long, or has a control character
  StateMagic   the file is no state: name the file that --out made
  StateShort, StateLong, StateDigest
               the state was cut or changed: put a backup in its place
  OtherOrigin  the state is of another log: give its own origin
  StateOrder, StateString, StateEdge
               the state was not made by this program: put a backup in its place
  StateHead    a note in the state does not verify under these keys: give those that it was made with
  CopyDamaged  a file of the copy is missing or false: mend it with 'follow --repair'
  ShelfFault   a file of the copy cannot be read: see the path and the rights
  NoTrustedSignature
               no key of the file signed the copy's checkpoint: add the log's key or a pin
And of any: Collision, two different strings share a digest, so keep the state and what was read;
WriteFault, standard output could not be written, and a part may have been; OutOfMemory.

Documents: README.md; docs/OPERATING.md, with each fault and what to do; docs/FORMATS.md.";

/// A command with its options. A crate of its own carries out each group.
#[derive(Drop)]
pub enum Command<'a> {
    /// Makes, changes or writes out a state.
    State(StateCommand<'a>),
    /// Asks a state, or needs none.
    Report(ReportCommand<'a>),
    /// Asks a copy.
    Copy(CopyCommand<'a>),
    /// Reads from places.
    Place(PlaceCommand<'a>),
}

/// The commands that make, change or write out a state.
#[derive(Drop)]
pub enum StateCommand<'a> {
    /// Makes a log from the entries on standard input.
    Build(build::Build<'a>),
    /// Takes files into a mirror.
    Take(take::Take<'a>),
    /// Merges two mirrors.
    Merge(merge::Merge<'a>),
    /// Fetches what is missing.
    Pull(pull::Pull<'a>),
    /// Writes the served files to a folder.
    Export(export::Export<'a>),
    /// Updates a folder to the served files: `export --update`.
    Update(export::Export<'a>),
    /// Writes the notes of a mirror to files of a folder.
    Notes(notes::Notes<'a>),
}

/// The commands that ask a state, or need none.
#[derive(Drop)]
pub enum ReportCommand<'a> {
    /// Prints the tree hash of the entry bundle on standard input.
    Root(root::Root),
    /// Verifies the proof on standard input.
    Check,
    /// Prints the heads of a mirror.
    Status(StateArgs<'a>),
    /// Prints the paths that the tree of a head lacks.
    Missing(missing::Missing<'a>),
    /// Prints the forks between the heads of a mirror.
    Forks(StateArgs<'a>),
    /// Compares checkpoints with the served one.
    Compare(compare::Compare<'a>),
    /// Prints a proof about the served entries.
    Prove(prove::Prove<'a>),
    /// Writes served entries.
    Entries(entries::Entries<'a>),
    /// Answers over HTTP from a mirror.
    Serve(serve::Serve<'a>),
}

/// The commands that ask a copy, each by `--dir`.
#[derive(Drop)]
pub enum CopyCommand<'a> {
    /// Prints the checkpoint of a copy.
    Status(CopyArgs<'a>),
    /// Compares checkpoints with a copy.
    Compare(compare::CopyCompare<'a>),
    /// Prints a proof about a copy.
    Prove(prove::CopyProve<'a>),
    /// Writes entries of a copy.
    Entries(entries::CopyEntries<'a>),
    /// Answers over HTTP from a copy.
    Serve(serve::CopyServe<'a>),
}

/// The commands that read from places.
#[derive(Drop)]
pub enum PlaceCommand<'a> {
    /// Brings a copy to the newest checkpoint of its places.
    Follow(follow::Follow<'a>),
    /// Verifies a complete log at a place, file by file.
    Audit(audit::Audit<'a>),
}
