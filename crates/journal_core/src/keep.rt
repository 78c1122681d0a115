//! Where commits are kept, so that they outlast a journal.

ghost use Rattle.std.specs.Prelude.{◌≡◌, ℕ, Bool, true, false, [], List, Option, None, IfOk, OnOk, OnErr, is_err};
ghost use Rattle.dio_core.specs.Counts.{IsCounted};
ghost use Rattle.txn_lang.specs.declared.commit.Commit.{Commit};
ghost use Rattle.txn_lang.specs.States.{Journal};
ghost use Rattle.journal_core.specs.Keeping.{CanKeep, Keeps};

use plain_data::Text;
use std::alloc::{AllocError, Global};
use txn_lang::Commit;

/// A keeper could not keep a commit, which it has counted.
#[derive(Clone, Copy, Debug, PartialEq, Eq)]
pub struct KeepFault;

/// Where commits are kept.
pub trait Keep: Drop {
    /// The commits that are kept, or None where the keeper doesn't tell.
    ghost kept: { Self → Option Journal };

    /// How many calls of `keep` have failed, up to the last value of a u64.
    ghost keep_faults: { Self → ℕ };

    /// Where what it borrows is lent from, or 0 where it borrows nothing.
    ghost home: { Self → ℕ };

    /// Whether it may fail at all.
    ghost may_fail: { Bool };

    /// Whether bytes stand for a commit.
    ghost stands_for: { List ℕ → Commit → Type 0 };

    /// The bytes that stand for a commit.
    fn make(&self, alloc: Global, commit: &Commit) -> Result<Text, AllocError>
        ensures { IfOk result (λ bytes. stands_for bytes commit.now) };

    /// Keeps the commit that the bytes stand for, behind those that are kept. It is never refused for want of memory.
    fn keep(&mut self, bytes: &Text) -> Result<(), KeepFault>
        requires { CanKeep stands_for (kept self.old) bytes.now }
        ensures ok { OnOk result (Keeps stands_for bytes.now (kept self.old) (kept self.new)) }
        ensures err { OnErr result (kept self.new ≡ kept self.old) }
        ensures counted { IsCounted (is_err result) (keep_faults self.old) (keep_faults self.new) }
        ensures home { home self.new ≡ home self.old }
        ensures may_fail { OnErr result (may_fail ≡ true) };

    /// How many calls of `keep` have failed.
    fn keep_faults(&self) -> u64
        ensures { result ≡ keep_faults self.now };
}

/// Keeps nothing beside the journal itself: it never fails, and tells no list.
#[derive(Clone, Copy, Debug, Drop, PartialEq, Eq)]
pub struct MemKeep;

impl Keep for MemKeep {
    ghost kept = { λ _. None };

    ghost keep_faults = { λ _. 0 };

    ghost home = { λ _. 0 };

    ghost may_fail = { false };

    ghost stands_for = { λ bytes _. bytes ≡ [] };

    fn make(&self, alloc: Global, _commit: &Commit) -> Result<Text, AllocError> {
        Ok(Text::new(alloc))
    }

    fn keep(&mut self, _bytes: &Text) -> Result<(), KeepFault> {
        Ok(())
    }

    fn keep_faults(&self) -> u64 {
        0
    }
}
