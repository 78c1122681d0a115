//! What lies under the lock, and the guard that lends it.
//!
//! Only this file takes the value out of its place and puts it back. What is taken out is a `HistoryGuard`, which has no `Drop` and a private field: in any other file a pattern that names the field is refused as `private-field`, and what takes a part out without it lets the rest go, which is refused as `linear-value-let-go`. So whoever has a guard puts it back or lends it, and no other body can leave the place empty. Whoever puts another value in the lent one's place owes for it what `leave` asks. What fills a place knows of no `Drop` of the value, so it can't drop it.
ghost use Rattle.std.specs.Prelude.{◌≡◌, ◌≤◌, IfSome};
ghost use mathlib.Core.List.{IsPrefix};
ghost use Rattle.plain_data.specs.Histories.{IsLawful};
ghost use Rattle.history_lock.specs.Tokens.{HoldsOwn, IsCurrent, KnowsAll};

use crate::front::Front;
use crate::lock::HistoryLock;
use crate::naming::Naming;
use crate::stands::Stands;
use std::marker::Model;
use std::sync::{Mutex, MutexGuard, Wait};

/// What lies under the lock: the value, and a token that knows its list and its count.
#[derive(Drop)]
struct Held<T: Stands, N: Naming> {
    value: Box<T>,
    entered: Front<T, N>,
}

impl<T: Stands, N: Naming> Model for Held<T, N> {
    ghost use Rattle.history_lock.specs.declared.known.Known.{Known};

    ghost Value = { Known T.Entry };

    ghost use Rattle.std.specs.Prelude.{◌≡◌};
    ghost use Rattle.history_lock.specs.Tokens.{IsCurrent};

    ghost view = { λ h. h.entered };

    ghost invariant = { λ h. record {
      current : IsCurrent h.entered (T.list h.value.value) (T.count h.value.value);
      origin : T.origin h.value.value ≡ N.lock.origin;
    } };
}

/// The place of the value under the lock. It is empty while a guard lends the value.
#[derive(Drop)]
pub(crate) struct Place<T: Stands, N: Naming> {
    held: Option<Held<T, N>>,
}

/// A mutex over a place with this value in it.
pub(crate) fn placed<T: Stands, N: Naming>(
    value: Box<T>,
    entered: Front<T, N>,
) -> Mutex<Place<T, N>>
    requires current { IsCurrent entered (T.list value.value) (T.count value.value) }
    requires origin { T.origin value.value ≡ N.lock.origin }
{
    Mutex::new(Place {
        held: Some(Held { value, entered }),
    })
}

/// Lends the value for reading and writing. `leave` spends it: it cannot be dropped.
pub struct HistoryGuard<'a, T: Stands, N: Naming> {
    place: MutexGuard<'a, Place<T, N>>,
    /// The value. What its type says of it has to hold after each write.
    pub value: Box<T>,
    /// A token of the list and the count as they were at `enter`.
    pub entered: Front<T, N>,
}

impl<'a, T: Stands, N: Naming> HistoryGuard<'a, T, N> {
    // Takes out what lies at the place, and lends it.
    pub(crate) fn take(mut place: MutexGuard<'a, Place<T, N>>) -> Option<HistoryGuard<'a, T, N>>
        ensures value { IfSome result (λ guard. KnowsAll T.list T.count guard.entered guard.value.value) }
        ensures origin { IfSome result (λ guard. T.origin guard.value.value ≡ N.lock.origin) }
    {
        let Held { value, entered } = place.held.take()?;
        Some(HistoryGuard {
            place,
            value,
            entered,
        })
    }
}

impl<'a, T: Stands + Drop, N: Naming> HistoryGuard<'a, T, N> {
    // Puts back what was lent.
    pub(crate) fn put_back(self)
        requires current { IsCurrent self.entered (T.list self.value.value) (T.count self.value.value) }
        requires origin { T.origin self.value.value ≡ N.lock.origin }
    {
        let HistoryGuard {
            mut place,
            value,
            entered,
        } = self;
        place.held = Some(Held { value, entered });
    }

    // Takes the value out for good.
    fn into_value(self) -> T
        ensures { result ≡ self.entry.value.value }
    {
        let HistoryGuard {
            place,
            value,
            entered: _,
        } = self;
        drop(place);
        Box::into_inner(value)
    }
}

impl<T: Stands + Drop, N: Naming> HistoryLock<T, N> {
    /// Ends the lock, and gives the value back.
    pub fn close<R: Wait>(self, rt: &R, mut front: Front<T, N>) -> T
        ensures seen { IsPrefix front.seen (T.list result) }
        ensures count { front.count ≤ T.count result }
        ensures origin { T.origin result ≡ N.lock.origin }
        ensures own_entries { HoldsOwn T.names front (T.list result) }
        ensures lawful { IsLawful T.may_follow N.lock.base (T.list result) }
    {
        self.enter(rt, &mut front).into_value()
    }
}
