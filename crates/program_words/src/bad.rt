//! Which word of a command line is bad, and why. Contracts see nothing of it.
use crate::place::{host_and_prefix, place_of};
use std::alloc::Global;

/// An option or a word that has a wrong spelling, or a value that is out of range.
#[derive(Drop, Clone, Copy)]
pub struct BadWord {
    /// The option or the word, as in the help.
    pub word: &'static str,
    /// The expected value, or what is wrong.
    pub reason: &'static str,
}

impl BadWord {
    /// This word is bad for this reason.
    pub fn new(word: &'static str, reason: &'static str) -> BadWord {
        BadWord { word, reason }
    }
}

/// The bad one of two words that name no place.
pub(crate) fn bad_place(kind: &str, word: &str) -> BadWord {
    // Any word names a folder, so the fault is in the kind or the server.
    if kind == "http" {
        BadWord::new("PLACE", server_reason(word))
    } else {
        BadWord::new("KIND", "dir or http is due")
    }
}

/// The first bad word among words that should name places, two words for each.
pub(crate) fn bad_places(alloc: Global, words: &[&str]) -> BadWord {
    let mut at = 0;
    while at < words.len() {
        if words.len() - at < 2 {
            return BadWord::new("PLACE", "a KIND has none behind it");
        }
        if names_none(alloc, words[at], words[at + 1]) {
            return bad_place(words[at], words[at + 1]);
        }
        at += 2;
    }
    // It gets here only if memory was refused.
    BadWord::new("PLACE", "one or more are due")
}

// Whether the two words name no place.
fn names_none(alloc: Global, kind: &str, word: &str) -> bool {
    match place_of(alloc, kind, word) {
        Ok(None) => true,
        _ => false,
    }
}

// Why a word names no server.
fn server_reason(word: &str) -> &'static str {
    let (host, prefix) = host_and_prefix(word);
    if host.ends_with(':') && prefix.starts_with("//") {
        "host:port is due, with no scheme before it"
    } else if prefix.ends_with('/') {
        "it ends in a slash"
    } else if host.starts_with('[') {
        "[IPv6 address]:port is due, with an optional /prefix"
    } else {
        "host:port is due, with an optional /prefix"
    }
}
