//! An append under the journal's lock.

ghost use Rattle.std.specs.Prelude.{◌≡◌, true, Some, IfOk, OnErr};
ghost use Rattle.history_lock.specs.Tokens.{IsLater};
ghost use Rattle.plain_data.specs.Histories.{IsLawful};
ghost use Rattle.diamond_store.specs.Appending.{client_of, Adds};
ghost use Rattle.diamond_store.specs.Following.{Follows};
ghost use Rattle.diamond_store.specs.Numbers.{shards_in};
ghost use Rattle.diamond_store.specs.Owing.{IsOwed};
ghost use Rattle.diamond_store.specs.Settling.{IfDenied};

use crate::book::Book;
use crate::decision::Decision;
use crate::history::History;
use history_lock::{Front, Naming};
use journal_core::{Keep, Ready};
use std::alloc::AllocError;
use std::sync::Wait;

/// Hands what is ready to the journal, under its lock. For want of memory nothing is added.
pub(crate) fn add<K: Keep, N: Naming, R: Wait>(
    rt: &R,
    history: &History<K, N>,
    token: &mut Front<Book<K>, N>,
    ready: &Ready,
) -> Result<Decision, AllocError>
    requires author { token.old.author ≡ Some ready.now.client }
    requires owed { IsOwed (shards_in N.lock.origin) token.old.seen ready.now }
    ensures adds { IfOk result (λ decision. Adds N.lock.base N.lock.origin token.old ready.now decision token.new) }
    ensures err { OnErr result (IsLater client_of token.old token.new) }
    ensures lawful { IsLawful Follows N.lock.base token.new.seen }
    ensures may_fail { IfOk result (λ decision. IfDenied decision (K.may_fail ≡ true)) }
{
    let _rising = ready.run.deltas.as_slice();
    let mut guard = history.journal.enter(rt, token);
    let decision = guard.value.append(ready);
    history.leave(rt, token, guard);
    decision
}
