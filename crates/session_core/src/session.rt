//! The session of one client.

use crate::error::SessionError;
use client_watches::Watching;
use docc_prepare::Attempt;

/// One client's session.
#[derive(Drop)]
pub struct Session {
    pub client: u32,
    /// The place of its next commit among the client's, from 1.
    pub seq: u64,
    /// Up to which commit it was brought up to date.
    pub at: u64,
    /// The attempt that is open, if one is.
    pub attempt: Option<Attempt>,
    /// Its watches, and the values on which they run.
    pub watching: Watching,
    /// The error after which it is over.
    pub over: Option<SessionError>,
}
