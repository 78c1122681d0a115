//! Tests of what stands between a store and the clients that are far from it: requests and answers (`wire`), frames and links. They stand apart from its crates since each test
//! function is proved as any other, and would be proved with its library each time that one changes.
#![tactic(auto)]

#[cfg(test)]
mod frames;
#[cfg(test)]
mod linked;
#[cfg(test)]
mod wire;
