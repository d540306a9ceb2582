//! Events that a shard keeps.

use crate::names::Names;
use lg_containers::Shared;
use lg_types::Event;

/// An event with its place in the list of all events, and the names that it brings into the tables once it is applied.
#[derive(Drop)]
pub struct KeptEvent {
    pub(crate) place: u64,
    pub(crate) event: Shared<Event>,
    pub(crate) names: Names,
}
