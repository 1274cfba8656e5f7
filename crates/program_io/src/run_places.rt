//! What opens the places that the words of a command name.
ghost use Rattle.std.specs.Prelude.{◌≡◌, IfOk};
ghost use Rattle.program_io.specs.Places.{place_of};
ghost use Rattle.program_io.specs.PlaceWords.{words_of};

use crate::failing::Failing;
use crate::place::{PlaceSource, WatchedPlace};
use mirror_client::{Pace, Site, TcpDial};
use program_words::Place;
use std::alloc::{AllocError, Global};
use std::fs::Files;
use std::net::{Net, TcpStream};
use std::rt::Clock;

/// What opens places by the words that name them: those of the system (`SystemPlaces`), or others, which may record what they are
/// asked for.
///
/// ```text
/// let mut place = env.places.open(alloc, &Place::Folder("log"), pace)?;
/// place.get(&Path::Checkpoint)? // the bytes of log/checkpoint
/// ```
pub trait RunPlaces {
    ghost use Rattle.program_io.specs.PlaceWords.{PlaceWords, words_of};

    /// A place.
    type Place: WatchedPlace + Failing + Drop;

    /// The place of these words, before its first get.
    ghost at: { Self → PlaceWords → Self.Place → Type 0 };

    /// Opens the place. A server is asked at that pace.
    ///
    /// # Errors
    ///
    /// `AllocError`: memory was refused.
    fn open(&self, alloc: Global, place: &Place<'_>, pace: Pace) -> Result<Self::Place, AllocError>
        ensures { IfOk result (at self.now (words_of place.now)) };
}

/// The folders and servers of the system. They may answer anything, and record nothing.
///
/// ```text
/// let places = SystemPlaces::new(&rt, &rt);
/// ```
#[derive(Drop)]
pub struct SystemPlaces<'a, R, N> {
    rt: &'a R,
    net: N,
}

impl<'a, R, N> SystemPlaces<'a, R, N> {
    /// The folders of that runtime, and the servers that are connected to over that net.
    pub fn new(rt: &'a R, net: N) -> Self {
        SystemPlaces { rt, net }
    }
}

impl<'a, R: Files, N: Net<Stream = TcpStream> + Clock + Clone + Drop> RunPlaces
    for SystemPlaces<'a, R, N> {
    type Place = PlaceSource<'a, R, TcpDial<N>>;

    ghost at = { λ _ words place. place ≡ place_of words };

    fn open(
        &self,
        alloc: Global,
        place: &Place<'_>,
        pace: Pace,
    ) -> Result<Self::Place, AllocError> {
        match place {
            Place::Folder(folder) => {
                let source = PlaceSource::of_folder(self.rt, alloc, folder)?;
                Ok(source)
            }
            Place::Server {
                host,
                prefix,
                address,
                port,
            } => {
                // A site has already accepted these words, so only memory can be lacking.
                let Ok(site) = Site::new(alloc, host, prefix) else {
                    return Err(AllocError);
                };
                let dial = TcpDial::new(self.net.clone()?, alloc, address, *port)?;
                let source = PlaceSource::of_server(alloc, site, dial, pace)?;
                Ok(source)
            }
        }
    }
}
