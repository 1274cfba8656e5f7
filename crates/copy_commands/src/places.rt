//! The places that a command names, as sources.
ghost use Rattle.std.specs.Prelude.{◌≡◌, ◌++◌, ◌∷◌, [], IfOk, None, Ok};
ghost use Rattle.copy_commands.specs.Places.{ArePlacesOf};

use copy_places::Places;
use mirror_client::Pace;
use mirror_sources::Source;
use program_io::RunPlaces;
use program_words::Place;
use std::alloc::{AllocError, Global};

// The places with one more, unless something failed.
fn with_place<S: Source + Drop>(
    places: Result<Places<S>, AllocError>,
    place: Result<S, AllocError>,
) -> Result<Places<S>, AllocError>
    ensures { IfOk result (λ all. (before : Places S) × (source : S) × (places ≡ Ok before)
        × (place ≡ Ok source) × (all.list.items ≡ before.list.items
        ++ record { source = source; failures = 0; first_wrong = None } ∷ [])) }
{
    let mut places = places?;
    places.add(place?)?;
    Ok(places)
}

/// The places of the words, each of them and in order, before their first gets. Servers are asked at that pace.
pub(crate) fn places_of<P: RunPlaces>(
    world: &P,
    alloc: Global,
    words: &[Place<'_>],
    pace: Pace,
) -> Result<Places<P::Place>, AllocError>
    ensures { IfOk result (λ places. ArePlacesOf (P.at world.now) words.now places.list.items) }
{
    let mut places = Ok(Places::new(alloc));
    for place in words {
        places = with_place(places, world.open(alloc, place, pace));
    }
    places
}
