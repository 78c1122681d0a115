//! Bodies that have been read and checked.

ghost use Rattle.std.specs.Prelude.{◌≡◌, IsTrue, Some, None};
ghost use Rattle.txn_lang.specs.Tree.{tree};
ghost use Rattle.txn_lang.specs.Typing.{IsTyped};
ghost use Rattle.txn_lang.specs.Writes.{first_write};

use plain_data::Text;
use txn_trees::Body;

/// A body that may run, with the text that it was read from. The rules of typing hold of it, and if it may only read it
/// has no write.
#[derive(Debug, Drop)]
pub struct Checked {
    pub body: Body,
    pub source: Text,
    /// Whether the body was checked to write nothing.
    pub read_only: bool,
    pub ghost read: { ∥ tree source ≡ Some body ∥₁ },
    pub ghost typed: { ∥ IsTyped body ∥₁ },
    pub ghost writes_none: { ∥ (IsTrue read_only → first_write body ≡ None) ∥₁ },
}
