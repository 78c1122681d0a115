//! The calls under the lock, which may wait: `enter`, `leave` and `close`.
ghost use Rattle.std.specs.Prelude.{◌≡◌, ◌+◌, ◌<◌, ◌≤◌, ◌^◌, length, true, IfSome};
ghost use mathlib.Core.List.{IsPrefix};
ghost use Rattle.plain_data.specs.Histories.{IsLawful};
ghost use Rattle.history_lock.specs.Entries.{AddsOwn};
ghost use Rattle.history_lock.specs.Tokens.{HoldsOwn, KnowsAll, KnowsAs, IsLater, SeesAdded, current_by};

use crate::front::Front;
use crate::held::HistoryGuard;
use crate::lock::HistoryLock;
use crate::locking::acquire;
use crate::naming::Naming;
use crate::rule::{Append, COUNT, Count, LENGTH, Raise};
use crate::stands::Stands;
use std::sync::Wait;

impl<T: Stands + Drop, N: Naming> HistoryLock<T, N> {
    /// Waits for the lock, and until the length and the count that the token finds are those of the value. The token becomes the value's list and count.
    pub fn enter<'a, R: Wait>(&'a self, rt: &R, front: &mut Front<T, N>) -> HistoryGuard<'a, T, N>
        ensures value { KnowsAll T.list T.count front.new result.value.value }
        ensures origin { T.origin result.value.value ≡ N.lock.origin }
        ensures entered { KnowsAs front.new result.entered }
        ensures later { IsLater T.names front.old front.new }
        ensures looks { front.old.looks < front.new.looks }
        ensures lawful { IsLawful T.may_follow N.lock.base front.new.seen }
    {
        for _ in rt.forever() {
            if let Some(guard) = self.try_enter(rt, front) {
                return guard;
            }
        }
        unreachable!()
    }

    /// Gives the value back, and waits in that it tries to add each entry until it succeeds. The token becomes the value's list and count.
    pub fn leave<R: Wait>(&self, rt: &R, front: &mut Front<T, N>, guard: HistoryGuard<'_, T, N>)
        // The token is as it was at that `enter`.
        requires entered { KnowsAs front.old guard.entered }

        // Only entries that name the token's author were added, and the count isn't below what it was.
        requires adds_own { AddsOwn T.names front.old.author guard.entered.seen (T.list guard.value.value) }
        requires lawful { IsLawful T.may_follow N.lock.base (T.list guard.value.value) }
        requires count { guard.entered.count ≤ T.count guard.value.value }
        requires origin { T.origin guard.value.value ≡ N.lock.origin }

        ensures left { front.new ≡ current_by T.list T.count guard.entry.value.value front.old }
    {
        let mut guard = guard;
        let from = front.entries();
        self.append_all(rt, front, &guard.value, from);
        self.raise_count(front, guard.value.count());
        let copy = self.split(front);
        self.meet(&mut guard.entered, copy);
        guard.put_back();
    }

    // Waits for the lock, and lends the value where the words are as the value says.
    fn try_enter<'a, R: Wait>(
        &'a self,
        rt: &R,
        front: &mut Front<T, N>,
    ) -> Option<HistoryGuard<'a, T, N>>
        ensures value { IfSome result (λ guard. KnowsAll T.list T.count front.new guard.value.value) }
        ensures origin { IfSome result (λ guard. T.origin guard.value.value ≡ N.lock.origin) }
        ensures entered { IfSome result (λ guard. KnowsAs front.new guard.entered) }
        ensures later { IsLater T.names front.old front.new }
        ensures looks { IfSome result (λ guard. front.old.looks < front.new.looks) }
        ensures lawful { IfSome result (λ guard. IsLawful T.may_follow N.lock.base front.new.seen) }
    {
        let mut guard = HistoryGuard::take(acquire(rt, &self.held))?;
        if self.catch_up(front, &mut guard) {
            return Some(guard);
        }
        guard.put_back();
        None
    }

    // The token learns what the lock's own token knows, and loads both words. Says whether they are the value's length and count.
    fn catch_up(&self, front: &mut Front<T, N>, guard: &mut HistoryGuard<'_, T, N>) -> bool
        requires current { KnowsAll T.list T.count guard.old.entered guard.old.value.value }
        ensures value { guard.new.value.value ≡ guard.old.value.value }
        ensures entered { guard.new.entered ≡ guard.old.entered }
        ensures fits { result ≡ true → KnowsAll T.list T.count front.new guard.new.value.value }
        ensures later { IsLater T.names front.old front.new }
        ensures looks { front.old.looks < front.new.looks }
        ensures lawful { IsLawful T.may_follow N.lock.base front.new.seen }
    {
        let copy = self.split(&mut guard.entered);
        self.meet(front, copy);
        let length = self.length(front);
        let count = self.learn_count(front);
        length == guard.value.entries() && count == guard.value.count()
    }

    // A load of the count.
    fn learn_count(&self, front: &mut Front<T, N>) -> u64
        ensures count { front.new ≡ record front.old { count = result } }
        ensures rises { front.old.count ≤ result }
    {
        let found = self.table.shared.load::<Count>(&mut front.seat, COUNT);
        front.count = found;
        found
    }

    // The count rises to this number.
    fn raise_count(&self, front: &mut Front<T, N>, count: u64)
        ensures { front.new ≡ record front.old { count = count } }
    {
        self.table
            .shared
            .fetch_max::<Raise>(&mut front.seat, COUNT, count);
        front.count = count;
    }

    // Adds the entries that the value's list has beyond the token's prefix, which has this length.
    fn append_all<R: Wait>(&self, rt: &R, front: &mut Front<T, N>, value: &T, from: u64)
        requires place { from ≡ length front.old.seen }
        requires adds_own { AddsOwn T.names front.old.author front.old.seen (T.list value.now) }
        requires lawful { IsLawful T.may_follow N.lock.base (T.list value.now) }
        ensures { front.new ≡ record front.old { seen = T.list value.now } }
    {
        let all = value.entries();
        let mut at = from;
        for _ in rt.forever() {
            if at >= all {
                return;
            }
            if self.try_append(front, value, at) {
                at += 1;
            }
        }
        unreachable!()
    }

    // One try to add the value's entry at this place, the next after the token's prefix. Says whether it was added.
    fn try_append(&self, front: &mut Front<T, N>, value: &T, at: u64) -> bool
        requires place { at ≡ length front.old.seen }
        requires next { (at < length (T.list value.now)) × (length (T.list value.now) < 2 ^ 64) }
        requires adds_own { AddsOwn T.names front.old.author front.old.seen (T.list value.now) }
        requires lawful { IsLawful T.may_follow N.lock.base (T.list value.now) }
        ensures { SeesAdded result (T.list value.now) at front.old front.new }
    {
        let found = self
            .table
            .shared
            .compare_exchange_with::<Append>(&mut front.seat, LENGTH, at, at + 1, value);
        let added = found == at;
        front.entries = if added { at + 1 } else { at };
        added
    }
}
