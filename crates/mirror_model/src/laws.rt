//! Laws of the definitions that the contracts cite.
//!
//! A law is a function with an empty body: only its contract counts.
pub mod edges;
pub mod events;
pub mod examples;
pub mod fetches;
pub mod fronts;
pub mod headline;
pub mod items;
pub mod lists;
pub mod play;
pub mod refusals;
pub mod reports;
pub mod tiles;
pub mod truth;
pub mod views;
