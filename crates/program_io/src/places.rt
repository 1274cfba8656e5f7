//! The lines of `--why` about a place of a log.
use crate::failing::Failing;
use crate::served::of_origin_in;
use crate::watched::WatchedSource;
use crate::why::Why;
use mirror_model::TakeFault;
use program_words::Place;
use std::alloc::{AllocError, Global};
use tlog_tiles::Path;

/// The name of a place, as in the words of the command.
pub fn place_name(alloc: Global, place: &Place<'_>) -> Result<String, AllocError> {
    match place {
        Place::Folder(folder) => String::from_str(alloc, folder),
        Place::Server { host, prefix, .. } => format!(in alloc; "{host}{prefix}"),
    }
}

fn file_name(alloc: Global, place: &Place<'_>, path: &Path) -> Result<String, AllocError> {
    match place {
        Place::Folder(folder) => format!(in alloc; "{folder}/{path}"),
        Place::Server { host, prefix, .. } => format!(in alloc; "http://{host}{prefix}/{path}"),
    }
}

/// Names the place.
pub fn of_place(alloc: Global, place: &Place<'_>) -> Option<Why> {
    Why::of_made(alloc, place_name(alloc, place))
}

/// Names a file of the place, and says what is wrong with it.
pub fn of_file(alloc: Global, place: &Place<'_>, path: &Path, reason: &str) -> Option<Why> {
    match file_name(alloc, place, path) {
        Ok(name) => Why::of_reason(alloc, &name, reason),
        Err(_) => None,
    }
}

/// Names the file of the place that its source could not get, and says why.
pub fn of_source<S: Failing>(alloc: Global, place: &Place<'_>, source: &S) -> Option<Why> {
    let Ok(name) = place_name(alloc, place) else {
        return None;
    };
    Why::of_failed(alloc, &name, source.last_failed()?)
}

/// Names the refused checkpoint of the place. If it has another origin, the reason says which.
pub fn of_refused<S: Drop>(
    alloc: Global,
    place: &Place<'_>,
    source: &WatchedSource<S>,
    fault: TakeFault,
) -> Option<Why> {
    let Ok(name) = file_name(alloc, place, &Path::Checkpoint) else {
        return None;
    };
    match (fault, source.note()) {
        (TakeFault::OtherOrigin, Some(note)) => of_origin_in(alloc, &name, note),
        _ => Why::of_thing(alloc, &name),
    }
}

/// Names the partial tile of the checkpoint's right edge that the place lacks.
pub fn of_edge<S: Drop>(
    alloc: Global,
    place: &Place<'_>,
    source: &WatchedSource<S>,
) -> Option<Why> {
    of_file(alloc, place, &source.lacked()?, "not found")
}
