//! A lock before it has a name.
ghost use Rattle.std.specs.Prelude.{◌≡◌, ◌≤◌, length, IfOk};
ghost use Rattle.plain_data.specs.Histories.{IsLawful};
ghost use Rattle.history_lock.specs.Entries.{NamesBelow};
ghost use Rattle.history_lock.specs.Tokens.{newborn};

use crate::front::Front;
use crate::held::placed;
use crate::limits::LAST_FIRST;
use crate::lock::HistoryLock;
use crate::naming::Naming;
use crate::rule::{Duplicate, Law, Opening};
use crate::stands::Stands;
use crate::view::View;
use atomic_table::{Seat, Table};
use std::alloc::{AllocError, Global};
use std::marker::{Model, PhantomData};

/// A lock that has no name yet: a name can be given only to a table that is already made.
///
/// Contracts see which lock it is, and what its first token knows.
#[derive(Drop)]
pub struct Opened<T: Stands> {
    table: Table<T, View<T::Entry>, Opening<T>, Law, Global>,
    seat: Seat<T, View<T::Entry>>,
    // In a box, since a struct with a table and a value of the type parameter side by side could not be passed to a generic function.
    value: Box<T>,
    first: u32,
    count: u64,
    entries: u64,
}

impl<T: Stands> Model for Opened<T> {
    ghost use Rattle.history_lock.specs.Names.{LockId};
    ghost use Rattle.history_lock.specs.declared.known.Known.{Known};

    ghost Value = { record { lock : LockId; front : Known T.Entry } };

    ghost use Rattle.std.specs.Prelude.{◌≡◌, ◌≤◌, [], length};
    ghost use Rattle.plain_data.specs.Histories.{IsLawful};
    ghost use Rattle.history_lock.specs.Steps.{opened};
    ghost use Rattle.history_lock.specs.declared.limits.TheConstants.{LAST_FIRST};
    ghost use Rattle.history_lock.specs.declared.rule.TheConstants.{WORDS};

    ghost view = { λ o. record { lock = record { table = o.seat.table_id; first = o.first; base = length (T.list o.value.value); origin = T.origin o.value.value }; front = o.seat.me.0.known } };

    ghost invariant = { λ o. record {
      seated : o.seat.table_id ≡ o.table.shared.table_id;
      three_words : o.table.shared.table_id.words ≡ WORDS;
      token : o.seat.me ≡ (opened o.first (T.list o.value.value) (T.count o.value.value), []);
      counted : o.count ≡ T.count o.value.value;
      entries : o.entries ≡ length (T.list o.value.value);
      key : o.table.shared.key ≡ record { value = o.value.value; first = o.first };
      small : o.first ≤ LAST_FIRST;
      lawful : IsLawful T.may_follow (length (T.list o.value.value)) (T.list o.value.value);
    } };
}

impl<T: Stands + Drop> Opened<T> {
    /// A lock over the value, whose authors are numbered from `first`. The only error is want of memory, which drops the value.
    pub fn new(alloc: Global, value: T, first: u32) -> Result<Opened<T>, AllocError>
        requires first { first ≤ LAST_FIRST }
        requires named { NamesBelow T.names first (T.list value) }
        requires lawful { IsLawful T.may_follow (length (T.list value)) (T.list value) }
        ensures front { IfOk result (λ opened. opened.front ≡ newborn (T.list value) (T.count value)) }
        ensures first { IfOk result (λ opened. opened.lock.first ≡ first) }
        ensures base { IfOk result (λ opened. opened.lock.base ≡ length (T.list value)) }
        ensures origin { IfOk result (λ opened. opened.lock.origin ≡ T.origin value) }
    {
        let count = value.count();
        let entries = value.entries();
        let words = [entries, 0, count];
        let opening = Opening { value, first };
        let (table, seat) = Table::of_words(alloc, &words, &opening)?;
        let Opening { value, first } = opening;
        Ok(Opened {
            table,
            seat,
            value: Box::new(alloc, value)?,
            first,
            count,
            entries,
        })
    }

    /// The lock under the name N, which has to be this lock's, and the first token. That knows the list with which the lock was made.
    pub fn named<N: Naming>(self) -> (HistoryLock<T, N>, Front<T, N>)
        requires named { self.lock ≡ N.lock }
        ensures front { result.1 ≡ self.front }
        ensures base { self.lock.base ≡ length self.front.seen }
    {
        let Opened {
            table,
            mut seat,
            value,
            first,
            count,
            entries,
        } = self;
        let copy = table.shared.split_seat::<Duplicate>(&mut seat);
        let front = Front {
            seat,
            count,
            draws: 0,
            entries,
            lock: PhantomData,
        };
        let entered = Front {
            seat: copy,
            count,
            draws: 0,
            entries,
            lock: PhantomData,
        };
        let lock = HistoryLock {
            table,
            held: placed(value, entered),
            first,
            name: PhantomData,
        };
        (lock, front)
    }
}
