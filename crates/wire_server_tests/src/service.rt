//! Tests of the store's side of clients far away (`remote_service`), by requests whose bytes are written by hand, over a shared
//! store.
//!
//! `table` has the requests with their answers, `spelling` says how bytes are written there, `clients` who asks, and `asking` asks.

mod asking;
mod clients;
mod spelling;
mod table;
