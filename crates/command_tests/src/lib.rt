//! Tests of the top call (`diamond_cli`) that no script can say: the order of reads and writes, words that ask for nothing, faults of
//! a source and of a sink, and `serve` and `remote` over links in memory and over the loopback. What a script can say is a case of `script_cases`,
//! and so is what `serve` does over a file.
//!
//! They stand apart from `diamond_cli`, which would be proved again with them.
#![tactic(auto)]

#[cfg(test)]
mod answer_order;
#[cfg(test)]
mod commands;
#[cfg(test)]
mod remote_commands;
#[cfg(test)]
mod served_commands;
