//! How clients come to a store, and what they are answered, where a test ends unless they come and are answered.

use history_lock::Naming;
use plain_data::Text;
use session_core::{SessionError, Turn};
use session_text::print_reply;
use std::alloc::{AllocError, Global};
use std::process::Abort;
use std::sync::Wait;
use store_talkers::{Founder, Newcomer, Talker, TestStore};

/// A new client.
pub(crate) fn new_client<N: Naming, R: Abort>(
    rt: &R,
    store: &TestStore<N>,
    first: &mut Founder<N>,
) -> Newcomer<N> {
    match first.join(store) {
        Some(newcomer) => newcomer,
        None => panic!(rt; "no client's number is left"),
    }
}

/// What a new client is answered to a line, as text.
pub(crate) fn reply_to_new_client<N: Naming, R: Wait + Abort>(
    rt: &R,
    alloc: Global,
    store: &TestStore<N>,
    first: &mut Founder<N>,
    line: &[u8],
) -> Result<Text, AllocError> {
    let newcomer = new_client(rt, store, first);
    let mut talker = Talker::new(rt, alloc, store, newcomer);
    let turn = talker.say(alloc, line);
    reply_text(rt, alloc, &turn)
}

/// A line's one reply, as text.
fn reply_text(
    rt: &impl Abort,
    alloc: Global,
    turn: &Result<Turn, SessionError>,
) -> Result<Text, AllocError> {
    match turn {
        Ok(Turn::Replies(replies)) => match replies.as_slice() {
            [reply] => print_reply(alloc, reply),
            _ => panic!(rt; "not one reply"),
        },
        _ => panic!(rt; "the line is not answered"),
    }
}
