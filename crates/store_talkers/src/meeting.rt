//! How clients of a test come, what they are answered, and how a pass learns from them.

use crate::talker::{Newcomer, TestPass, TestStore};
use history_lock::Naming;
use plain_data::Text;
use session_core::{SessionError, Turn};
use session_text::{print_reply, push_reply};
use std::alloc::{AllocError, Global};
use std::marker::Model;

/// The pass of the first client of a store. By it others join.
#[derive(Drop)]
pub struct Founder<N: Naming> {
    pass: TestPass<N>,
}

impl<N: Naming> Model for Founder<N> {
    ghost use Rattle.std.specs.Prelude.{ℕ};
    ghost use Rattle.std.specs.Coded.{coded_ℕ};

    ghost Value = { ℕ };

    ghost coded = { coded_ℕ };

    ghost view = { λ f. f.pass.client };

    ghost invariant = { λ f. Unit {0} };
}

impl<N: Naming> Founder<N> {
    /// Of the store's first pass.
    pub fn new(pass: TestPass<N>) -> Founder<N> {
        Founder { pass }
    }

    /// A new client, unless no client's number is left.
    pub fn join(&mut self, store: &TestStore<N>) -> Option<Newcomer<N>> {
        match store.join(&mut self.pass) {
            Ok(new) => Some(Newcomer::new(new)),
            Err(_) => None,
        }
    }

    /// The pass learns what another knows, which goes.
    pub fn learn_from(&mut self, store: &TestStore<N>, mut other: TestPass<N>) {
        let token = store.split(&mut other);
        store.meet(&mut self.pass, token);
    }

    /// The pass, with which the store can be closed.
    pub fn into_pass(self) -> TestPass<N> {
        let Founder { pass } = self;
        pass
    }
}

/// Whether a line has one reply, which is this.
pub fn is_told(alloc: Global, turn: &Result<Turn, SessionError>, wanted: &[u8]) -> bool {
    match turn {
        Ok(Turn::Replies(replies)) => match replies.as_slice() {
            [reply] => is_printed(&print_reply(alloc, reply), wanted),
            _ => false,
        },
        _ => false,
    }
}

/// Whether a text was printed, and is this.
pub fn is_printed(text: &Result<Text, AllocError>, wanted: &[u8]) -> bool {
    match text {
        Ok(text) => text.as_slice() == wanted,
        Err(_) => false,
    }
}

/// The replies of a turn as text, a line each.
pub fn turn_text(alloc: Global, turn: &Result<Turn, SessionError>) -> Result<Text, AllocError> {
    let mut text = Text::new(alloc);
    if let Ok(Turn::Replies(replies)) = turn {
        for reply in replies.as_slice() {
            push_reply(&mut text, reply)?;
            text.push(b'\n')?;
        }
    }
    Ok(text)
}
