//! A journal that is run again, as a script of one thread, and replies that are held against it.

use abort_witness::Witness;
use dio_core::{MemSink, MemSource};
use rdt_types::{Outcome, Settings};
use script_runner::run_script;
use session_core::Turn;
use session_text::{Reply, print_reply};
use std::alloc::{AllocError, Global};
use txn_lang::Commit;

/// A script, and the output that it is to have.
#[derive(Drop)]
pub(crate) struct Script {
    lines: Vec<u8>,
    output: Vec<u8>,
}

/// A client's line, of a verb and a body.
#[derive(Clone, Copy)]
pub(crate) struct Line<'a> {
    pub(crate) client: u32,
    pub(crate) verb: &'a [u8],
    pub(crate) body: &'a [u8],
}

impl Script {
    /// No line yet.
    pub(crate) fn new(alloc: Global) -> Script {
        Script {
            lines: Vec::new(alloc),
            output: Vec::new(alloc),
        }
    }

    /// A line, and what is to be said to it.
    pub(crate) fn add_said(
        &mut self,
        alloc: Global,
        line: Line<'_>,
        said: &[u8],
    ) -> Result<(), AllocError> {
        let Line { client, verb, body } = line;
        let name = format!(in alloc; "{client} ")?;
        for part in [name.as_bytes(), verb, body, b"\n"] {
            self.lines.extend_from_slice(part)?;
        }
        for part in [name.as_bytes(), said, b"\n"] {
            self.output.extend_from_slice(part)?;
        }
        Ok(())
    }

    /// A line, and its reply.
    pub(crate) fn add(
        &mut self,
        alloc: Global,
        line: Line<'_>,
        reply: &Reply,
    ) -> Result<(), AllocError> {
        let said = print_reply(alloc, reply)?;
        self.add_said(alloc, line, said.as_slice())
    }

    /// The commits of a journal: each client's body again, with its number and its outcome.
    pub(crate) fn add_commits(
        &mut self,
        alloc: Global,
        commits: &[Commit],
    ) -> Result<(), AllocError> {
        for commit in commits {
            let reply = Reply::Commit(commit.number, commit.outcome.clone()?);
            let line = Line {
                client: commit.client,
                verb: b"do ",
                body: commit.body.as_slice(),
            };
            self.add(alloc, line, &reply)?;
        }
        Ok(())
    }

    /// Whether a run in one thread has the output.
    pub(crate) fn is_answered(
        &self,
        alloc: Global,
        settings: &Settings,
    ) -> Result<bool, AllocError> {
        let mut source = MemSource::new(alloc, self.lines.as_slice(), 4096, &[])?;
        let mut sink = MemSink::new(alloc, 4096, &[])?;
        let status = run_script(alloc, settings, &mut source, &mut sink);
        Ok(status == 0 && sink.taken() == self.output.as_slice())
    }
}

/// The one reply of a line.
pub(crate) fn reply_of(turn: &Turn) -> Option<&Reply> {
    match turn {
        Turn::Replies(replies) => match replies.as_slice() {
            [reply] => Some(reply),
            _ => None,
        },
        _ => None,
    }
}

/// The commit of a number.
fn commit_at(commits: &[Commit], number: u64) -> Option<&Commit> {
    let place = number.checked_sub(1)?;
    commits.get(place as usize)
}

/// Whether the commit of the number is the client's, and ended so.
fn is_committed(commits: &[Commit], client: u32, number: u64, outcome: &Outcome) -> bool {
    match commit_at(commits, number) {
        Some(commit) => commit.client == client && commit.outcome == *outcome,
        None => false,
    }
}

/// Whether the commit that a witness names stands past its base, and has written at its address.
fn is_clash(commits: &[Commit], witness: &Witness) -> bool {
    match commit_at(commits, witness.number) {
        Some(commit) => {
            witness.base < witness.number && commit.deltas.get(&witness.address).is_some()
        }
        None => false,
    }
}

/// How many commits are a client's.
fn commits_of(commits: &[Commit], client: u32) -> usize {
    let mut count: usize = 0;
    for commit in commits {
        if commit.client == client {
            count = count.saturating_add(1);
        }
    }
    count
}

/// Whether a client's replies are those of its commits, one reply each, in their order, and its aborts are explained.
pub(crate) fn replies_stand(commits: &[Commit], client: u32, turns: &[Turn]) -> bool {
    let mut last = 0;
    let mut count: usize = 0;
    for turn in turns {
        match reply_of(turn) {
            Some(Reply::Commit(number, outcome)) => {
                if *number <= last || !is_committed(commits, client, *number, outcome) {
                    return false;
                }
                last = *number;
                count = count.saturating_add(1);
            }
            Some(Reply::Abort(witness)) => {
                if !is_clash(commits, witness) {
                    return false;
                }
            }
            Some(_) => {}
            None => return false,
        }
    }
    count == commits_of(commits, client)
}
