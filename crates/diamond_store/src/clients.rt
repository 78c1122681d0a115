//! The calls of a store by which clients come and learn from one another, and its end.

ghost use Rattle.std.specs.Prelude.{◌≡◌, ◌≢◌, ◌≤◌, Err, IfOk, IfErr, IfSome};
ghost use mathlib.Core.List.{IsPrefix};
ghost use Rattle.txn_lang.specs.Journals.{IsLegal};
ghost use Rattle.diamond_store.specs.Answers.{Learns, Meets, Joins, AllDrawn};
ghost use Rattle.diamond_store.specs.Books.{IsAtMostRise};
ghost use Rattle.diamond_store.specs.declared.join_error.JoinError.TheVariants as join_error;
ghost use Rattle.diamond_store.specs.Numbers.{faults_in, home_in};

use crate::book::Book;
use crate::gate::Gate;
use crate::history::History;
use crate::join_error::JoinError;
use crate::pass::Pass;
use crate::store::Store;
use history_lock::{Author, Drawn, Front, Naming};
use journal_core::Keep;
use std::collections::BTreeSet;
use std::sync::Wait;
use txn_lang::CommitList;

/// What is left of a store: the keeper, and the commits.
#[derive(Drop)]
pub struct Closed<K: Keep> {
    pub keeper: K,
    pub commits: CommitList,
}

impl<K: Keep, G: Gate + Drop, N: Naming> Store<K, G, N> {
    /// A new client, which has seen what the pass has, and is subscribed to nothing. That no number is left is never told as
    /// want of memory.
    pub fn join(&self, pass: &mut Pass<K, N>) -> Result<Pass<K, N>, JoinError>
        ensures learns { Learns pass.old pass.new }
        ensures same { (pass.new.journal ≡ pass.old.journal) × (pass.new.seen ≡ pass.old.seen) }
        ensures joins { IfOk result (Joins N.lock.first pass.old pass.new) }
        ensures clients { IfErr result (AllDrawn pass.new) }
        ensures told { result ≢ Err join_error.NoMemory }
    {
        let token = self.history.journal.split(&mut pass.front);
        match self.history.journal.draw_author(token) {
            Drawn::Author(author) => {
                let Author { mut front, number } = author;
                let copy = self.history.journal.split(&mut front);
                self.history.journal.meet(&mut pass.front, copy);
                Ok(Pass {
                    client: number,
                    front,
                    seen: pass.seen,
                    subscribed: BTreeSet::new(self.alloc),
                    taken: pass.seen,
                    denied: 0,
                    settings: pass.settings,
                })
            }
            Drawn::Spent(token, drawn) => {
                self.history.journal.meet(&mut pass.front, token);
                Err(JoinError::Clients(drawn))
            }
        }
    }

    /// A token of what the pass knows, by which another can learn it.
    pub fn split(&self, pass: &mut Pass<K, N>) -> Front<Book<K>, N>
        ensures unchanged { pass.new ≡ pass.old }
        ensures token { (result.seen ≡ pass.old.journal) × (result.count ≡ pass.old.denials) }
    {
        self.history.journal.split(&mut pass.front)
    }

    /// The pass learns what a token knows, and has then seen as much.
    pub fn meet(&self, pass: &mut Pass<K, N>, token: Front<Book<K>, N>)
        ensures learns { Learns pass.old pass.new }
        ensures meets { Meets pass.old pass.new token }
    {
        let length = token.entries();
        self.history.journal.meet(&mut pass.front, token);
        pass.seen = pass.seen.max(length);
    }

    /// Ends a client's subscriptions: the registry keeps nothing of it any longer. It is never refused for want of
    /// memory. A client that only stops taking is let go in time.
    pub fn leave<R: Wait>(&self, rt: &R, pass: Pass<K, N>) {
        self.feeder.lock(rt).leave(pass.client);
    }

    /// Ends the store. Its commits begin with the pass's prefix.
    pub fn close<R: Wait>(self, rt: &R, pass: Pass<K, N>) -> Closed<K>
        ensures begins { IsPrefix pass.journal result.commits }
        ensures legal { IsLegal pass.trusted result.commits }
        ensures kept { IfSome (K.kept result.keeper) (λ list. list ≡ result.commits) }
        ensures counted { IsAtMostRise (faults_in N.lock.origin) pass.denials (K.keep_faults result.keeper) }
        ensures home { K.home result.keeper ≡ home_in N.lock.origin }
    {
        let Store { history, .. } = self;
        let History { journal, .. } = history;
        let Pass { front, .. } = pass;
        let (keeper, commits) = journal.close(rt, front).close();
        Closed { keeper, commits }
    }
}
