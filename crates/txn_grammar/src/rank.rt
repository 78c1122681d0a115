//! The ranks of chains: which operators join operands of one chain.

/// A rank of chains. Each binds looser than those below it.
#[derive(Clone, Copy, Debug, PartialEq, Eq)]
pub enum Rank {
    /// `or`
    Disjunction,
    /// `and`
    Conjunction,
    /// `+` and `-`
    Sum,
    /// `*`
    Product,
}
