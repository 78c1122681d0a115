//! Tests of what runs in threads: the lock (`history_lock`) and the shared store (`diamond_store`), with sessions over it. They hold
//! what threads were answered against what one thread is, which no clause sees: that calls return and succeed, and that the text
//! of a talk is the one that was meant. `backends` has sessions whose backend is in their way.
//!
//! They stand apart from those crates since each test function is proved as any other, and would be proved with its library each
//! time that one changes. What most of them share is `store_talkers`.
#![tactic(auto)]

#[cfg(test)]
mod backends;
#[cfg(test)]
mod locks;
#[cfg(test)]
mod meeting;
#[cfg(test)]
mod mixed;
#[cfg(test)]
mod replay;
#[cfg(test)]
mod slow_keeper;
#[cfg(test)]
mod stores;
#[cfg(test)]
mod two_threads;
#[cfg(test)]
mod watched;
