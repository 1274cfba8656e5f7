//! The client: its source over connections in memory.
mod ahead;
mod bundle_server;
mod busy;
mod canned;
mod loopback;
mod pulls;
mod replies;
mod sources;
