//! The commits that were taken, for contracts alone.

ghost use Rattle.std.specs.Prelude.{◌≡◌, [], ◌∷◌, ◌++◌};
ghost use Rattle.std.specs.Borrow.{ftrue};
ghost use Rattle.std.specs.Coded.{coded_list};
ghost use Rattle.txn_lang.specs.contracts.commit.Commit as commit;
ghost use Rattle.txn_lang.specs.States.{Journal};

use std::marker::Model;
use txn_lang::Commit;

/// The commits that were taken. Contracts see the list. It has no bytes at run time, and its calls do nothing.
#[derive(Drop)]
pub(crate) struct Taken {
    pub(crate) ghost commits: { Journal } by { coded_list commit.the_row.coded },
}

impl Model for Taken {
    ghost also_owns = { λ _. ftrue };
}

impl Taken {
    /// None yet.
    pub(crate) fn none() -> Taken
        ensures { result.commits ≡ [] }
    {
        Taken {}
    }

    /// These, and one behind them.
    pub(crate) fn and(&self, _commit: &Commit) -> Taken
        ensures { result.commits ≡ self.now.commits ++ _commit.now ∷ [] }
    {
        Taken {}
    }
}
