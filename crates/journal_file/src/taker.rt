//! Who takes commits.

ghost use Rattle.std.specs.Prelude.{◌≡◌, ◌++◌, ◌∷◌, [], Some, OnOk, OnErr};
ghost use Rattle.txn_lang.specs.States.{Journal};
ghost use Rattle.txn_lang.specs.Tree.{tree};

use std::alloc::AllocError;
use txn_lang::{Commit, CommitList};
use txn_trees::Body;

/// Takes commits one behind another, and keeps of them what it wants.
pub trait CommitTaker {
    /// The commits that were taken.
    ghost commits: { Self → Journal };

    /// Takes a commit behind the others, with the body that its text is.
    fn take(&mut self, commit: Commit, body: Body) -> Result<(), AllocError>
        requires { tree commit.body ≡ Some body }
        ensures took { OnOk result (commits self.new ≡ commits self.old ++ commit ∷ []) }
        ensures same { OnErr result (commits self.new ≡ commits self.old) };
}

/// All of them.
impl CommitTaker for CommitList {
    ghost commits = { λ list. list };

    fn take(&mut self, commit: Commit, _body: Body) -> Result<(), AllocError> {
        self.push(commit)
    }
}
