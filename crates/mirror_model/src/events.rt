//! Events at mirrors.

use crate::items::Item;

/// An event at one of several mirrors, which are numbered from 0.
///
/// For example, mirror 1 is merged with mirror 0, which stays unchanged:
///
/// ```
/// let event = Event::Merge { target: 1, source: 0 };
/// ```
#[derive(Drop)]
pub enum Event {
    /// The mirror `target` takes the item.
    Take { target: usize, item: Item },
    /// The mirror `target` is merged with the mirror `source`.
    Merge { target: usize, source: usize },
}
