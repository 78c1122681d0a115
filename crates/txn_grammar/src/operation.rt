//! The operations of each kind. A word of an operation is no reserved word: it may be a name elsewhere.

use rdt_types::Kind;
use txn_trees::{ReadWord, WriteWord};

/// An operation that a kind has: what it is, and how many arguments it takes.
#[derive(Clone, Copy, Debug)]
pub struct Operation<W> {
    pub word: W,
    pub arguments: usize,
}

/// The writes of each kind: its word's spelling, what it is, and the number of its arguments.
pub const WRITES: [(Kind, &[u8], WriteWord, usize); 14] = [
    (Kind::Bool, b"put", WriteWord::Put, 1),
    (Kind::Counter, b"put", WriteWord::Put, 1),
    (Kind::Counter, b"add", WriteWord::Add, 1),
    (Kind::Text, b"put", WriteWord::Put, 1),
    (Kind::Set, b"add", WriteWord::Add, 1),
    (Kind::Set, b"remove", WriteWord::Remove, 1),
    (Kind::Set, b"clear", WriteWord::Clear, 0),
    (Kind::Hash, b"put", WriteWord::Put, 2),
    (Kind::Hash, b"remove", WriteWord::Remove, 1),
    (Kind::Hash, b"clear", WriteWord::Clear, 0),
    (Kind::List, b"push", WriteWord::Push, 1),
    (Kind::List, b"remove", WriteWord::Remove, 1),
    (Kind::List, b"clear", WriteWord::Clear, 0),
    (Kind::Peak, b"raise", WriteWord::Raise, 1),
];

/// The reads of each kind, likewise.
pub const READS: [(Kind, &[u8], ReadWord, usize); 12] = [
    (Kind::Bool, b"get", ReadWord::Get, 0),
    (Kind::Counter, b"get", ReadWord::Get, 0),
    (Kind::Text, b"get", ReadWord::Get, 0),
    (Kind::Set, b"has", ReadWord::Has, 1),
    (Kind::Set, b"all", ReadWord::All, 0),
    (Kind::Hash, b"has", ReadWord::Has, 1),
    (Kind::Hash, b"get", ReadWord::Get, 1),
    (Kind::Hash, b"fields", ReadWord::Fields, 0),
    (Kind::List, b"at", ReadWord::At, 1),
    (Kind::List, b"all", ReadWord::All, 0),
    (Kind::Peak, b"get", ReadWord::Get, 0),
    (Kind::Peak, b"over", ReadWord::Over, 1),
];
