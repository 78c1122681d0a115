//! A session that is tried with crashes, or with faults of its disk.

ghost use Rattle.std.specs.Prelude.{◌≤◌, length};

use crate::files::difference::Difference;
use crate::files::lines::add_reply;
use crate::files::recovering::leaves_either;
use crate::files::session::{Aim, Session, body_of};
use crate::files::talk::Talk;
use commit_file::MemDisk;
use std::alloc::{AllocError, Global};

/// Which of the transactions the disk denies.
#[derive(Clone, Copy)]
enum Denied {
    None,
    /// That at this place.
    One(usize),
    /// That at this place, and all behind it.
    From(usize),
}

impl Denied {
    fn has(self, place: usize) -> bool {
        match self {
            Denied::None => false,
            Denied::One(denied) => place == denied,
            Denied::From(first) => place >= first,
        }
    }
}

/// What a session is answered of which the disk denies some transactions. Numbers go on behind these.
fn replies_of(alloc: Global, replies: &[&str], denied: Denied) -> Result<Vec<u8>, AllocError> {
    let mut text = Vec::new(alloc);
    let mut number: u64 = 1;
    for (place, reply) in replies.iter().enumerate() {
        if denied.has(place) {
            text.extend_from_slice(b"disk\n")?;
        } else {
            add_reply(alloc, &mut text, reply, number)?;
            number = number.saturating_add(1);
        }
    }
    Ok(text)
}

/// The bodies of those that are not denied.
fn bodies_of<'s>(
    alloc: Global,
    lines: &[&'s str],
    denied: Denied,
) -> Result<Vec<&'s str>, AllocError> {
    let mut bodies = Vec::new(alloc);
    for (place, line) in lines.iter().enumerate() {
        if !denied.has(place) {
            bodies.push(body_of(line))?;
        }
    }
    Ok(bodies)
}

/// More calls than any of these sessions makes.
const MANY_CALLS: u64 = 400;

/// The numbers of the calls from one on.
fn calls_from(alloc: Global, first: u64) -> Result<Vec<u64>, AllocError> {
    let mut calls = Vec::new(alloc);
    for call in first..MANY_CALLS {
        calls.push(call)?;
    }
    Ok(calls)
}

/// A session that is tried: which calls fail, what is said then, and what is kept.
#[derive(Drop)]
pub struct Attempt<'s> {
    session: Session<'s>,
    aim: Aim,
    /// The calls of the disk that fail.
    pub fails: Vec<u64>,
    /// What is said, and what has to come of it.
    pub talk: Talk,
    /// The bodies that are acknowledged.
    told: Vec<&'s str>,
    /// These, and the first that was denied, which a crash may leave, too.
    more: Vec<&'s str>,
}

impl Aim {
    /// The calls that fail.
    fn fails(self, alloc: Global) -> Result<Vec<u64>, AllocError> {
        match self {
            Aim::Crashes => Ok(Vec::new(alloc)),
            Aim::Fault(call) => Vec::from_slice(alloc, &[call]),
            Aim::Gone(call) => calls_from(alloc, call),
        }
    }

    /// Which transactions of a session the disk denies.
    fn denies(self, session: Session) -> Denied {
        match self {
            Aim::Crashes => Denied::None,
            Aim::Fault(call) => Denied::One(session.place_of(call)),
            Aim::Gone(call) => Denied::From(session.place_of(call)),
        }
    }

    /// The body of the first transaction of a session that the disk denies.
    fn first_denied<'s>(self, session: Session<'s>) -> Option<&'s str> {
        match self {
            Aim::Crashes => None,
            Aim::Fault(call) | Aim::Gone(call) => match session.lines.get(session.place_of(call)) {
                Some(line) => Some(body_of(line)),
                None => None,
            },
        }
    }
}

/// What a session says of which the disk denies some transactions, and what has to come of it.
fn talk_of(
    alloc: Global,
    session: Session,
    denied: Denied,
    commits: usize,
) -> Result<Talk, AllocError> {
    let replies = replies_of(alloc, session.replies, denied)?;
    Talk::answered(alloc, session.lines, replies, commits)
}

/// Bodies, and one more where there is one.
fn with_one_more<'s>(
    alloc: Global,
    bodies: &[&'s str],
    one: Option<&'s str>,
) -> Result<Vec<&'s str>, AllocError> {
    let mut more = Vec::from_slice(alloc, bodies)?;
    if let Some(body) = one {
        more.push(body)?;
    }
    Ok(more)
}

/// A session that is served, and of which these bodies are acknowledged.
fn of_told<'s>(
    alloc: Global,
    session: Session<'s>,
    aim: Aim,
    told: Vec<&'s str>,
) -> Result<Attempt<'s>, AllocError> {
    let first = aim.first_denied(session);
    Ok(Attempt {
        session,
        aim,
        fails: aim.fails(alloc)?,
        talk: talk_of(alloc, session, aim.denies(session), told.len())?,
        more: with_one_more(alloc, told.as_slice(), first)?,
        told,
    })
}

/// A session that isn't served, since a call of the recovery fails: the server ends with this status. The file holds no commit.
fn unrecovered<'s>(
    alloc: Global,
    session: Session<'s>,
    aim: Aim,
    status: u8,
) -> Result<Attempt<'s>, AllocError> {
    Ok(Attempt {
        session,
        aim,
        fails: aim.fails(alloc)?,
        talk: Talk::unheard(alloc, session.lines, status)?,
        told: Vec::new(alloc),
        more: Vec::new(alloc),
    })
}

/// Whether each image that a crash may leave after so many calls has what was acknowledged, or this and one more.
fn is_safe_after(
    alloc: Global,
    disk: &MemDisk,
    calls: u64,
    session: Session,
    bodies: &[&str],
) -> Result<bool, AllocError>
    requires { calls ≤ length disk.now.marks }
{
    let count = session.place_of(calls).min(bodies.len());
    let more = count.saturating_add(1).min(bodies.len());
    leaves_either(alloc, disk, calls, &bodies[..count], &bodies[..more])
}

/// The first call behind which a crash leaves something else.
fn unsafe_crash(
    alloc: Global,
    disk: &MemDisk,
    session: Session,
    bodies: &[&str],
) -> Result<Option<Difference>, AllocError> {
    for calls in 0..disk.calls() {
        if !is_safe_after(alloc, disk, calls, session, bodies)? {
            return Ok(Some(Difference::Crash(calls)));
        }
    }
    let calls = disk.calls();
    Ok(if is_safe_after(alloc, disk, calls, session, bodies)? {
        None
    } else {
        Some(Difference::Crash(calls))
    })
}

impl<'s> Attempt<'s> {
    /// A session that is tried so. A server whose disk fails at its recovery ends with this status.
    pub fn new(
        alloc: Global,
        session: Session<'s>,
        aim: Aim,
        disk_fault: u8,
    ) -> Result<Attempt<'s>, AllocError> {
        match aim {
            Aim::Fault(call) if call < session.recovery => {
                unrecovered(alloc, session, aim, disk_fault)
            }
            _ => {
                let told = bodies_of(alloc, session.lines, aim.denies(session))?;
                of_told(alloc, session, aim, told)
            }
        }
    }

    /// How it differs what a crash may leave of a disk on which no call failed.
    fn crashed(&self, alloc: Global, disk: &MemDisk) -> Result<Option<Difference>, AllocError> {
        if disk.calls() != self.session.all_calls() {
            return Ok(Some(Difference::Calls(disk.calls())));
        }
        unsafe_crash(alloc, disk, self.session, self.told.as_slice())
    }

    /// Whether each image that a crash may leave at the end has what was acknowledged, or this and the first that was denied.
    fn is_kept(&self, alloc: Global, disk: &MemDisk) -> Result<bool, AllocError> {
        leaves_either(
            alloc,
            disk,
            disk.calls(),
            self.told.as_slice(),
            self.more.as_slice(),
        )
    }

    /// This difference, unless the session was told the truth, and what is kept is what it was told.
    fn faulted(
        &self,
        alloc: Global,
        disk: &MemDisk,
        served: Option<Difference>,
        differs: Difference,
    ) -> Result<Option<Difference>, AllocError> {
        Ok(if served.is_none() && self.is_kept(alloc, disk)? {
            None
        } else {
            Some(differs)
        })
    }

    /// How it differs what came of it: what was served differs so, and this disk is left.
    pub fn difference(
        &self,
        alloc: Global,
        disk: &MemDisk,
        served: Option<Difference>,
    ) -> Result<Option<Difference>, AllocError> {
        match self.aim {
            Aim::Crashes => match served {
                Some(found) => Ok(Some(found)),
                None => self.crashed(alloc, disk),
            },
            Aim::Fault(call) => self.faulted(alloc, disk, served, Difference::Fault(call)),
            Aim::Gone(call) => self.faulted(alloc, disk, served, Difference::Gone(call)),
        }
    }
}
