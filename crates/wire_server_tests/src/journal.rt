//! What clients were told, held against the one journal that is left. Its commits add to one counter.

use abort_witness::Witness;
use dio_core::LONGEST_LINE;
use rdt_types::{Address, Delta, Item, Outcome, Value};
use remote_wire::{Given, Request, WireAnswer};
use session_text::{Reply, read_reply};
use std::alloc::Global;
use txn_lang::Commit;

/// The commits of a journal, and the counter to which they add.
#[derive(Clone, Copy)]
pub(crate) struct Additions<'a> {
    pub(crate) commits: &'a [Commit],
    pub(crate) counter: &'a Address,
}

impl<'a> Additions<'a> {
    /// What a commit adds.
    fn added_by(self, commit: &Commit) -> i64 {
        match commit.deltas.get(self.counter) {
            Some(Delta::AddCounter(more)) => *more,
            _ => 0,
        }
    }

    /// Whether the counter is this after so many commits.
    fn is_value(self, number: u64, value: i64) -> bool {
        let mut sum: i64 = 0;
        for (place, commit) in self.commits.iter().enumerate() {
            if (place as u64) < number {
                sum = sum.wrapping_add(self.added_by(commit));
            }
        }
        number <= self.commits.len() as u64 && sum == value
    }

    /// The commit of a number.
    fn commit_at(self, number: u64) -> Option<&'a Commit> {
        let place = number.checked_sub(1)?;
        self.commits.get(place as usize)
    }

    /// Whether the commit of a number is this one of a client.
    fn is_commit(self, number: u64, client: u32, seq: u64) -> bool {
        match self.commit_at(number) {
            Some(commit) => commit.client == client && commit.seq == seq,
            None => false,
        }
    }

    /// Whether the commit that a witness names stands past its base, is another client's, and adds.
    fn is_clash(self, client: u32, witness: &Witness) -> bool {
        match self.commit_at(witness.number) {
            Some(commit) => {
                witness.base < witness.number
                    && commit.client != client
                    && self.added_by(commit) != 0
            }
            None => false,
        }
    }
}

/// Whether a request of a client far away is answered as the journal has it. So many of its commits were told before.
pub(crate) fn is_answered(
    journal: Additions<'_>,
    client: u32,
    asked: &Request,
    answer: &WireAnswer,
    told: u64,
) -> bool {
    match (asked, &answer.given) {
        (Request::Refresh, Given::Done) => answer.seen <= journal.commits.len() as u64,
        (Request::Read(_), Given::Read(base, Value::Counter(value))) => {
            journal.is_value(*base, *value)
        }
        (Request::Append(_, _, _), Given::Number(number)) => {
            journal.is_commit(*number, client, told.saturating_add(1))
        }
        _ => false,
    }
}

/// Whether a run told one number, which is the counter's value after so many commits.
fn is_seen(journal: Additions<'_>, number: u64, outcome: &Outcome) -> bool {
    match outcome {
        Outcome::Ok(items) => match items.as_slice() {
            [Item::Int(value)] => journal.is_value(number, *value),
            _ => false,
        },
        _ => false,
    }
}

/// Whether a client's line is answered as the journal has it. So many of its commits were told before.
pub(crate) fn is_replied(journal: Additions<'_>, client: u32, reply: &Reply, told: u64) -> bool {
    match reply {
        Reply::Commit(number, outcome) => {
            journal.is_commit(*number, client, told.saturating_add(1))
                && is_seen(journal, number.saturating_sub(1), outcome)
        }
        Reply::At(number, outcome) => is_seen(journal, *number, outcome),
        Reply::Abort(witness) => journal.is_clash(client, witness),
        _ => false,
    }
}

/// The reply that a line has.
pub(crate) fn reply_of(alloc: Global, line: &[u8]) -> Option<Reply> {
    if line.len() > LONGEST_LINE {
        return None;
    }
    read_reply(alloc, line).ok()
}
