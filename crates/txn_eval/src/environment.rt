//! The names that are bound where a body runs.

use rdt_types::Item;

/// Names, each with the item that it stands for.
pub(crate) type Environment = txn_lang::Environment<Item>;
