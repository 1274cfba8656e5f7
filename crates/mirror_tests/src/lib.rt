//! Tests of the mirror and of pulls. They are in a crate of their own, since the tests of a crate are checked together with
//! the crate again.
//!
//! It has tests of `tlog_mirror`, `mirror_pull`, `mirror_files` and `mirror_http`, and of the crates of formats, for behavior that the program cannot show.
//! The transcripts of `tests/` show the rest.
#![tactic(auto)]

#[cfg(test)]
mod client;
#[cfg(test)]
mod climbs;
#[cfg(test)]
mod forks;
#[cfg(test)]
mod given;
#[cfg(test)]
mod hashes;
#[cfg(test)]
mod items;
#[cfg(test)]
mod keys;
#[cfg(test)]
mod laid;
#[cfg(test)]
mod loads;
#[cfg(test)]
mod macs;
#[cfg(test)]
mod memory;
#[cfg(test)]
mod merges;
#[cfg(test)]
mod opening;
#[cfg(test)]
mod paths;
#[cfg(test)]
mod plays;
#[cfg(test)]
mod pulls;
#[cfg(test)]
mod served;
#[cfg(test)]
mod settle;
#[cfg(test)]
mod shapes;
#[cfg(test)]
mod stores;
#[cfg(test)]
mod streams;
#[cfg(test)]
mod tlog_given;
#[cfg(test)]
mod verified;
