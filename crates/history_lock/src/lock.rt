//! The lock, and the calls that wait for nobody.
ghost use Rattle.std.specs.Prelude.{◌≡◌, ◌<◌, ◌≤◌, length, None};
ghost use mathlib.Core.List.{IsPrefix};
ghost use Rattle.plain_data.specs.Histories.{IsLawful};
ghost use Rattle.history_lock.specs.Tokens.{HaveDifferentNumbers, HoldsOwn, IsDrawn, IsLater, OneBeginsOther, TriesDraw, copy_of, looked, met};
ghost use Rattle.history_lock.specs.Authors.{IfAuthor, IfSpent};

use crate::author::{Author, Drawn};
use crate::front::Front;
use crate::held::Place;
use crate::limits::MOST_DRAWS;
use crate::naming::Naming;
use crate::rule::{Compare, DRAWS, Draw, Duplicate, LENGTH, Law, Look, Meet, Opening};
use crate::stands::Stands;
use crate::view::View;
use atomic_table::Table;
use std::alloc::Global;
use std::marker::{Model, PhantomData};
use std::sync::Mutex;

/// The lock of the name N, over a value of the type T.
#[derive(Drop)]
pub struct HistoryLock<T: Stands, N: Naming> {
    pub(crate) table: Table<T, View<T::Entry>, Opening<T>, Law, Global>,
    pub(crate) held: Mutex<Place<T, N>>,
    pub(crate) first: u32,
    pub(crate) name: PhantomData<N>,
}

impl<T: Stands, N: Naming> Model for HistoryLock<T, N> {
    ghost use Rattle.atomic_table.specs.Seated.{TableId};

    ghost Value = { TableId };

    ghost use Rattle.std.specs.Prelude.{◌≡◌, ◌≤◌, length};
    ghost use Rattle.history_lock.specs.declared.limits.TheConstants.{LAST_FIRST};
    ghost use Rattle.history_lock.specs.declared.rule.TheConstants.{WORDS};

    ghost view = { λ l. l.table.shared.table_id };

    ghost invariant = { λ l. record {
      named : l.table.shared.table_id ≡ N.lock.table;
      three_words : l.table.shared.table_id.words ≡ WORDS;
      numbered : l.first ≡ N.lock.first;
      small : l.first ≤ LAST_FIRST;
      key_first : l.table.shared.key.first ≡ N.lock.first;
      key_base : length (T.list l.table.shared.key.value) ≡ N.lock.base;
    } };
}

impl<T: Stands + Drop, N: Naming> HistoryLock<T, N> {
    /// How long the list is. The token first moves on to the list that the length shows, never back.
    pub fn length(&self, front: &mut Front<T, N>) -> u64
        ensures length { result ≡ length front.new.seen }
        ensures never_back { IsPrefix front.old.seen front.new.seen }
        ensures looked { front.new ≡ looked front.old front.new.seen }
        ensures later { IsLater T.names front.old front.new }
        ensures own_entries { HoldsOwn T.names front.old front.new.seen }
        ensures lawful { IsLawful T.may_follow N.lock.base front.new.seen }
    {
        let found = self.table.shared.load::<Look>(&mut front.seat, LENGTH);
        front.entries = found;
        found
    }

    /// A second token of the same prefix, count and draws, without author.
    pub fn split(&self, front: &mut Front<T, N>) -> Front<T, N>
        ensures unchanged { front.new ≡ front.old }
        ensures copy { result ≡ copy_of front.old }
    {
        let seat = self.table.shared.split_seat::<Duplicate>(&mut front.seat);
        Front {
            seat,
            count: front.count,
            draws: front.draws,
            entries: front.entries,
            lock: PhantomData,
        }
    }

    /// Mine takes in the other: it becomes the longer of the two, which the shorter begins, and keeps its own author and looks.
    pub fn meet(&self, mine: &mut Front<T, N>, other: Front<T, N>)
        ensures met { mine.new ≡ met mine.old other }
        ensures later { IsLater T.names mine.old mine.new }
        ensures one_list { OneBeginsOther mine.old.seen other.seen }
        ensures begins_mine { IsPrefix mine.old.seen mine.new.seen }
        ensures begins_other { IsPrefix other.seen mine.new.seen }
        ensures own_entries { HoldsOwn T.names mine.old mine.new.seen }
        ensures lawful { IsLawful T.may_follow N.lock.base mine.new.seen }

        // Two authors that met have different numbers.
        ensures apart { HaveDifferentNumbers mine.old.author other.author }
    {
        let Front {
            seat,
            count,
            draws,
            entries,
            lock: _,
        } = other;
        self.table.shared.join_seat::<Meet>(&mut mine.seat, seat);
        self.table.shared.load::<Compare>(&mut mine.seat, LENGTH);
        mine.count = mine.count.max(count);
        mine.draws = mine.draws.max(draws);
        mine.entries = mine.entries.max(entries);
    }

    // One try to draw the number that follows the draws known. Where others were quicker, the token learns how many they drew.
    fn try_draw(&self, front: &mut Front<T, N>) -> Option<u32>
        requires { front.old.draws < MOST_DRAWS }
        ensures drawn { TriesDraw T.names N.lock.first result front.old front.new }
        ensures limit { front.new.draws ≤ MOST_DRAWS }
    {
        let known = front.draws;
        let found = self
            .table
            .shared
            .compare_exchange::<Draw>(&mut front.seat, DRAWS, known, known + 1);
        if found == known {
            front.draws = known + 1;
            Some(self.first + known as u32)
        } else {
            front.draws = found;
            None
        }
    }

    /// Makes the token an author, with a number that is drawn once and that no entry names before.
    ///
    /// `Spent` comes exactly where so many numbers were drawn before that none is left. It takes at most `MOST_DRAWS` tries.
    pub fn draw_author(&self, mut front: Front<T, N>) -> Drawn<T, N>
        requires author { front.author ≡ None }
        ensures author { IfAuthor result (IsDrawn T.names N.lock.first front) }
        ensures spent { IfSpent result (λ drawn token. drawn ≡ MOST_DRAWS) }
        ensures given_back { IfSpent result (λ drawn token. token ≡ record front { draws = drawn }) }
    {
        while front.draws < MOST_DRAWS {
            if let Some(number) = self.try_draw(&mut front) {
                return Drawn::Author(Author { front, number });
            }
        }
        let draws = front.draws;
        Drawn::Spent(front, draws)
    }
}
