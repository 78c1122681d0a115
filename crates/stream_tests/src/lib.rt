//! Tests of the streams: what the clauses of `dio_core`, `link_buffer` and `serve_status` leave open, as when a reader of std
//! fails, or that a call succeeds. They stand apart from these crates since each test function is proved as any other, and would
//! be proved with its library each time that one changes.
#![tactic(auto)]

#[cfg(test)]
mod counted;
#[cfg(test)]
mod lines;
#[cfg(test)]
mod links;
#[cfg(test)]
mod moves;
#[cfg(test)]
mod read_ahead;
#[cfg(test)]
mod streams;
#[cfg(test)]
mod told_disk;
