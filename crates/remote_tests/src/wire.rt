//! Tests of remote_wire. Bytes are written by hand, from the tables of crates/remote_wire/README.md.

mod answers;
mod requests;
