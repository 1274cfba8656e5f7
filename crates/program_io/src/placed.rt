//! Sources at the places that the words of a command name.
ghost use Rattle.std.specs.Prelude.{◌≡◌, IfOk};
ghost use Rattle.std.proofs.Common.{inl, inr};
ghost use Rattle.program_io.specs.PlaceWords.{words_of};

use crate::watched::WatchedSource;
use mirror_client::{HttpSource, Pace, Site, TcpDial};
use mirror_folders::DirSource;
use program_words::Place;
use std::alloc::{AllocError, Global};
use std::fs::Files;
use std::net::{Net, TcpStream};
use std::rt::Clock;

/// A source with the place that it was made for. It is watched for `--why`.
///
/// ```text
/// let placed = folder_at(&rt, alloc, "log");
/// placed.place // Place::Folder("log")
/// ```
#[derive(Drop)]
pub struct PlacedSource<'a, S: Drop> {
    /// The place.
    pub place: Place<'a>,
    /// The source, before its first get.
    pub source: WatchedSource<S>,
}

/// The folder with that path as a source. It takes no memory.
///
/// ```text
/// let placed = folder_at(&rt, alloc, "log"); // its files are log/checkpoint and so on
/// ```
pub fn folder_at<'a, R: Files>(
    rt: &'a R,
    alloc: Global,
    folder: &'a str,
) -> PlacedSource<'a, DirSource<'a, R>>
    ensures { words_of result.place ≡ inl folder.now }
{
    PlacedSource {
        place: Place::Folder(folder),
        source: WatchedSource::new(alloc, DirSource::new(rt, alloc, folder)),
    }
}

/// The server of that host and prefix as a source. It connects to that address and port, and is asked at that pace.
///
/// ```text
/// let placed = server_at(net, alloc, ("log.example:80", "/2026"), ("log.example", 80), pace)?;
/// ```
///
/// # Errors
///
/// `AllocError`: memory was refused. `Site` has already accepted these words, so nothing else is wrong.
pub fn server_at<'a, N: Net<Stream = TcpStream> + Clock + Clone + Drop>(
    net: N,
    alloc: Global,
    site: (&'a str, &'a str),
    address: (&'a str, u16),
    pace: Pace,
) -> Result<PlacedSource<'a, HttpSource<TcpDial<N>>>, AllocError>
    ensures { IfOk result (λ placed. words_of placed.place ≡ inr record {
      host = site.entry.0.now;
      prefix = site.entry.1.now;
      address = address.entry.0.now;
      port = address.entry.1;
    }) }
{
    let Ok(made) = Site::new(alloc, site.0, site.1) else {
        return Err(AllocError);
    };
    let dial = TcpDial::new(net, alloc, address.0, address.1)?;
    Ok(PlacedSource {
        place: Place::Server {
            host: site.0,
            prefix: site.1,
            address: address.0,
            port: address.1,
        },
        source: WatchedSource::new(alloc, HttpSource::new(alloc, made, dial, pace)),
    })
}
