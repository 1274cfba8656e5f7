//! The places of a log's files.
ghost use Rattle.std.specs.Prelude.{◌≡◌, ◌≢◌, ◌++◌, ◌∷◌, ◌↔◌, ℕ, ◌<◌, IfNone, IfOk, IfSome, IsTrue, codes, length, map, option_map, slice_index};
ghost use Rattle.clap.specs.Words.{found_of, rows_of};
ghost use Rattle.program_words.specs.Refusals.{JudgesPart};
ghost use Rattle.program_words.specs.Spelling.{ArePlaces, FindsPart, IsAddressOf, IsEmptyOrSlash, IsHostAndPrefix, IsLiteral, IsPlace, colon, left_bracket};
ghost use Rattle.mirror_client.specs.Site.{slash};
ghost use Rattle.program_words.specs.Readings.{IsPlaceGiven};

use crate::bad::{bad_place, bad_places};
use crate::number::number_in;
use crate::parts::word_of;
use crate::refusals::Refusals;
use clap::ArgMatches;
use mirror_client::{Site, SiteFault};
use std::alloc::{AllocError, Global};
use std::net::Ipv6Addr;

/// The place of a log's files.
#[derive(Drop, Clone, Copy)]
pub enum Place<'a> {
    /// A folder.
    Folder(&'a str),
    /// An HTTP server.
    Server {
        /// The host with its port, as in the Host field.
        host: &'a str,
        /// The text before the paths of the files: empty, or a path that begins with a slash.
        prefix: &'a str,
        /// The host to connect to: a name or an address, an IPv6 one without its brackets.
        address: &'a str,
        /// The port to connect to, 1 to 65535.
        port: u16,
    },
}

/// Divides the word before its first slash.
pub(crate) fn host_and_prefix(word: &str) -> (&str, &str)
    ensures whole { word.now ≡ result.0.now ++ result.1.now }
    ensures before { (i : ℕ) → i < length result.0.now → slice_index result.0.now i ≢ slash }
    ensures after { IsEmptyOrSlash result.1.now }
{
    match word.find('/') {
        Some(at) => word.split_at(at),
        None => word.split_at(word.len()),
    }
}

// Divides the host at its last colon, which is in neither part.
fn name_and_digits(host: &str) -> Option<(&str, &str)>
    ensures some { IfSome result (λ x. host.now ≡ x.0.now ++ colon ∷ x.1.now) }
    ensures last { IfSome result (λ x. (i : ℕ) → i < length x.1.now
        → slice_index x.1.now i ≢ colon) }
    ensures none { IfNone result ((i : ℕ) → i < length host.now → slice_index host.now i ≢ colon) }
{
    host.rsplit_once(':')
}

// The text before the last bracket, if it writes an IPv6 address. The first bracket stands before all of this.
fn literal_of(behind: &str) -> Option<&str>
    ensures { FindsPart (IsLiteral (left_bracket ∷ behind.now))
        (option_map (λ text. text.now) result) }
{
    let Some(text) = behind.strip_suffix(']') else {
        return None;
    };
    match text.parse::<Ipv6Addr>() {
        Ok(_) => Some(text),
        Err(_) => None,
    }
}

// The address for a connection to the host of this name, if it has one.
fn address_of(name: &str) -> Option<&str>
    ensures { FindsPart (IsAddressOf name.now) (option_map (λ address. address.now) result) }
{
    match name.strip_prefix('[') {
        Some(behind) => literal_of(behind),
        None => Some(name),
    }
}

// Whether a site may have this host and prefix.
fn is_site(alloc: Global, host: &str, prefix: &str) -> Result<bool, AllocError>
    ensures { IfOk result (λ is. IsTrue is ↔ IsHostAndPrefix host.now prefix.now) }
{
    match Site::new(alloc, host, prefix) {
        Ok(_) => Ok(true),
        Err(SiteFault::OutOfMemory) => Err(AllocError),
        Err(_) => Ok(false),
    }
}

// The server that the word names, if it names one.
fn server_of<'a>(alloc: Global, word: &'a str) -> Result<Option<Place<'a>>, AllocError>
    ensures { IfOk result (FindsPart (IsPlace (codes "http") word.now)) }
{
    let (host, prefix) = host_and_prefix(word);
    if !is_site(alloc, host, prefix)? {
        return Ok(None);
    }
    let Some((name, digits)) = name_and_digits(host) else {
        return Ok(None);
    };
    let Some(port) = number_in(digits, 1, 65_535) else {
        return Ok(None);
    };
    let Some(address) = address_of(name) else {
        return Ok(None);
    };
    Ok(Some(Place::Server {
        host,
        prefix,
        address,
        port: port as u16,
    }))
}

/// The place that the two words name, if they name one: `dir` and a folder, or `http` and a server.
pub(crate) fn place_of<'a>(
    alloc: Global,
    kind: &str,
    word: &'a str,
) -> Result<Option<Place<'a>>, AllocError>
    ensures { IfOk result (FindsPart (IsPlace kind.now word.now)) }
{
    match kind {
        "dir" => Ok(Some(Place::Folder(word))),
        "http" => server_of(alloc, word),
        _ => Ok(None),
    }
}

/// The place that the two words name: `dir` and a folder, or `http` and a server. If they name none, the bad word is noted; if
/// memory was refused, that is noted.
///
/// ```text
/// place_or_bad(alloc, "http", "log.example:80/2026", &mut refusals)   // host log.example:80, prefix /2026, port 80
/// place_or_bad(alloc, "http", "[::1]:80", &mut refusals)              // host [::1]:80, address ::1, port 80
/// ```
pub(crate) fn place_or_bad<'a>(
    alloc: Global,
    kind: &str,
    word: &'a str,
    refusals: &mut Refusals,
) -> Place<'a>
    ensures { JudgesPart (IsPlace kind.now word.now) refusals.old refusals.new result }
{
    match place_of(alloc, kind, word) {
        Ok(Some(place)) => place,
        Ok(None) => {
            refusals.note(bad_place(kind, word));
            Place::Folder(word)
        }
        Err(_) => {
            refusals.lack_memory();
            Place::Folder(word)
        }
    }
}

// The places that the words name, two words for each, if they name such places.
#[tactic(auto, using(crate::proofs::Places::none_read, crate::proofs::Places::one_more_at, crate::proofs::Places::all_at, crate::proofs::Places::odd_at))]
fn places_of<'a>(alloc: Global, words: &[&'a str]) -> Result<Option<Vec<Place<'a>>>, AllocError>
    ensures { IfOk result (λ found. FindsPart (ArePlaces (map (λ w. w.now) words.now))
        (option_map (λ places. places.items) found)) }
{
    let mut places = Vec::new(alloc);
    let mut at = 0;
    while at < words.len() {
        // The last word is a kind without its place.
        if words.len() - at < 2 {
            return Ok(None);
        }
        let Some(place) = place_of(alloc, words[at], words[at + 1])? else {
            return Ok(None);
        };
        places.push(place)?;
        at += 2;
    }
    Ok(Some(places))
}

/// The places that the words name, two words for each. If they name none, the first bad word is noted; if memory was refused,
/// that is noted.
pub(crate) fn places_or_bad<'a>(
    alloc: Global,
    words: &[&'a str],
    refusals: &mut Refusals,
) -> Vec<Place<'a>>
    ensures { JudgesPart (ArePlaces (map (λ w. w.now) words.now)) refusals.old refusals.new
        result.items }
{
    match places_of(alloc, words) {
        Ok(Some(places)) => places,
        Ok(None) => {
            refusals.note(bad_places(alloc, words));
            Vec::new(alloc)
        }
        Err(_) => {
            refusals.lack_memory();
            Vec::new(alloc)
        }
    }
}

/// Reads the place from the options.
pub(crate) fn place_given<'a>(
    alloc: Global,
    found: &ArgMatches<'a>,
    refusals: &mut Refusals,
) -> Place<'a>
    ensures { JudgesPart (IsPlaceGiven (rows_of (found_of found.now))) refusals.old refusals.new
        result }
{
    let kind = word_of(found, "kind", refusals);
    let word = word_of(found, "place", refusals);
    place_or_bad(alloc, kind, word, refusals)
}
