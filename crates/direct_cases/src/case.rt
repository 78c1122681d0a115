//! The rows of a case, and what came of them.

use dio_core::NEWLINE;
use std::alloc::{AllocError, Global};

/// What came of a case.
#[derive(Drop)]
pub(crate) enum Outcome {
    Held,
    /// A row is none.
    NoForm,
    /// The replies that came.
    Differs(String),
}

/// What a row says.
#[derive(Clone, Copy)]
pub(crate) enum Row<'a> {
    /// Nothing.
    Remark,
    /// One more reply.
    Reply(&'a str),
    /// A line of a client, and its first reply, if it has one.
    Line {
        is_second: bool,
        line: &'a str,
        reply: Option<&'a str>,
    },
}

impl<'a> Row<'a> {
    /// Reads a row, unless it is of no form.
    pub(crate) fn read(row: &'a str) -> Option<Row<'a>> {
        let row = row.trim_start();
        if row.is_empty() || row.starts_with("#") {
            return Some(Row::Remark);
        }
        match row.strip_prefix("=> ") {
            Some(reply) => Some(Row::Reply(reply)),
            None => Row::read_line(row),
        }
    }

    /// Reads a client's number, its line and a reply.
    fn read_line(row: &'a str) -> Option<Row<'a>> {
        let (client, rest) = row.split_once(" ")?;
        let is_second = match client {
            "0" => false,
            "1" => true,
            _ => return None,
        };
        let (line, reply) = match rest.rsplit_once(" => ") {
            Some((line, reply)) => (line.trim_end(), Some(reply)),
            None => (rest, None),
        };
        Some(Row::Line {
            is_second,
            line,
            reply,
        })
    }
}

/// The replies that are wanted, and those that came.
#[derive(Drop)]
pub(crate) struct Replies {
    wanted: Vec<u8>,
    came: Vec<u8>,
}

impl Replies {
    pub(crate) fn new(alloc: Global) -> Replies {
        Replies {
            wanted: Vec::new(alloc),
            came: Vec::new(alloc),
        }
    }

    /// One more reply is wanted.
    pub(crate) fn want(&mut self, reply: &str) -> Result<(), AllocError> {
        self.wanted.extend_from_slice(reply.as_bytes())?;
        self.wanted.push(NEWLINE)?;
        Ok(())
    }

    /// The first reply to a line is wanted, if there is one.
    pub(crate) fn want_first(&mut self, reply: Option<&str>) -> Result<(), AllocError> {
        match reply {
            Some(reply) => self.want(reply),
            None => Ok(()),
        }
    }

    /// These replies came.
    pub(crate) fn come(&mut self, replies: &[u8]) -> Result<(), AllocError> {
        self.came.extend_from_slice(replies)?;
        Ok(())
    }

    /// Whether just these came that are wanted.
    pub(crate) fn outcome(&self, alloc: Global) -> Result<Outcome, AllocError> {
        if self.came.as_slice() == self.wanted.as_slice() {
            return Ok(Outcome::Held);
        }
        let came = String::from_utf8_lossy(alloc, self.came.as_slice())?;
        Ok(Outcome::Differs(came))
    }
}
