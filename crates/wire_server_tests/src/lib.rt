//! Tests of clients far from a store whose requests are answered (`remote_service`) and who are served over links (`wire_server`), over a shared store: what came of links against
//! what went in, which no clause sees. They stand apart from that crate since each test function is proved as any other, and would
//! be proved with its library each time that one changes.
//!
//! `serving` serves one link over a store of its own, `absent` is a store that isn't there, and `journal` holds what clients were
//! told against the journal that is left. `service` asks without links.
#![tactic(auto)]

#[cfg(test)]
mod absent;
#[cfg(test)]
mod all_links;
#[cfg(test)]
mod journal;
#[cfg(test)]
mod lengths;
#[cfg(test)]
mod one_link;
#[cfg(test)]
mod race;
#[cfg(test)]
mod service;
#[cfg(test)]
mod serving;
