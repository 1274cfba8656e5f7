//! Laws of counting sources and shelves.
//!
//! A law is a function with an empty body: only its contract counts.
ghost use Rattle.std.specs.Prelude.{◌≡◌};
ghost use Rattle.program_io.specs.Counting.{AreHonestAlike};

use crate::shelf::CountingShelf;
use crate::source::CountingSource;
use mirror_folders::Shelf;
use mirror_sources::Source;
use std::io::Write;
use std::time::Clock;

/// A counting source is honest for a log of some entries exactly if its inner source is. The inner source records the
/// requested paths and the number of failed gets.
pub fn counted_source_law<S: Source + Drop, C: Clock + Drop, W: Write + Drop>()
    ensures honest { (counted : _)
        → AreHonestAlike (⟦<CountingSource<S, C, W> as Source>⟧.may_answer counted)
        (S.may_answer counted.source) }
    ensures asked { (counted : _) → ⟦<CountingSource<S, C, W> as Source>⟧.asked counted
        ≡ S.asked counted.source }
    ensures failed { (counted : _) → ⟦<CountingSource<S, C, W> as Source>⟧.failed counted
        ≡ S.failed counted.source }
{}

/// The inner shelf of a counting shelf records the files that were put, the files to flush and the number of failed calls.
pub fn counted_shelf_law<S: Shelf + Drop, C: Clock + Drop, W: Write + Drop>()
    ensures puts { (counted : _) → ⟦<CountingShelf<S, C, W> as Shelf>⟧.puts counted
        ≡ S.puts counted.shelf }
    ensures flushes { (counted : _) → ⟦<CountingShelf<S, C, W> as Shelf>⟧.flushes counted
        ≡ S.flushes counted.shelf }
    ensures failed { (counted : _) → ⟦<CountingShelf<S, C, W> as Shelf>⟧.failed counted
        ≡ S.failed counted.shelf }
{}
