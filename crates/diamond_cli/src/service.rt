//! What a serve is asked for, and how it is done.

use rdt_types::Settings;

/// What the words ask of a serve.
#[derive(Drop)]
pub(crate) struct Asked<'a, R> {
    /// What starts threads and waits.
    pub(crate) rt: &'a R,
    /// The settings of the store.
    pub(crate) settings: Settings,
    /// How many links are accepted at most.
    pub(crate) sessions: u32,
    /// Whether the links bring requests of the wire, or lines.
    pub(crate) wire: bool,
}

/// A serve whose links are served in one way.
#[derive(Drop)]
pub(crate) struct Service<'a, V, R> {
    /// What starts threads and waits.
    pub(crate) rt: &'a R,
    /// The settings of the store.
    pub(crate) settings: Settings,
    /// How many links are accepted at most.
    pub(crate) sessions: u32,
    /// Whether a relay begins beside the store. It is for a keeper that may wait, so that none who reads waits for it.
    pub(crate) relayed: bool,
    /// The way in which each link is served.
    pub(crate) way: &'a V,
}
