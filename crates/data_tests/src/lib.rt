//! Tests of plain_data, rdt_types, conflict_table, write_buffer, change_feed, client_cache, abort_witness and edge_slab: of each public
//! function that it succeeds where there is memory, which no clause says, and the rows that aren't worked lines beside the
//! definitions. They stand apart from the libraries, since a crate with tests is proved twice, and above all of them, so
//! that an edit of a test proves this crate alone.
#![tactic(auto)]

#[cfg(test)]
mod caches;
#[cfg(test)]
mod containers;
#[cfg(test)]
mod edges;
#[cfg(test)]
mod feeds;
#[cfg(test)]
mod given;
#[cfg(test)]
mod lists;
#[cfg(test)]
mod types;
#[cfg(test)]
mod witnesses;
