//! A case: a script, and what is to come of it.

use crate::quoted::{CaseError, text_in};
use crate::scripts::row::{Repeated, Row, Spelled};
use dio_core::NEWLINE;
use std::alloc::{AllocError, Global};

/// A script, and what is to come of it.
#[derive(Drop)]
pub struct Case<'a> {
    /// Its name.
    pub name: &'a str,
    settings: Spelled<'a>,
    /// The script, line by line.
    pub script: Vec<u8>,
    pub(crate) replies: Vec<u8>,
    /// Whether these are the last replies, behind others that are not said.
    pub(crate) are_last: bool,
    pub(crate) status: u8,
}

impl<'a> Case<'a> {
    /// A case of no line, over a store of the standard settings.
    pub(crate) fn new(alloc: Global, name: &'a str) -> Case<'a> {
        Case {
            name,
            settings: Spelled {
                shards: "4",
                window: "4096",
                limit: "100000",
            },
            script: Vec::new(alloc),
            replies: Vec::new(alloc),
            are_last: false,
            status: 0,
        }
    }

    /// The words of the command that runs it.
    pub fn words(&self) -> [&'a str; 7] {
        [
            "run",
            "--shards",
            self.settings.shards,
            "--window",
            self.settings.window,
            "--limit",
            self.settings.limit,
        ]
    }

    /// Adds what a row says.
    pub(crate) fn add(&mut self, alloc: Global, row: Row<'a>) -> Result<(), CaseError> {
        match row {
            Row::Settings(settings) => self.settings = settings,
            Row::Status(status) => self.status = status,
            Row::Ending => self.are_last = true,
            Row::Unended => {
                self.script.pop();
            }
            Row::More(more) => add_more(alloc, &mut self.script, more)?,
            Row::MoreReply(more) => add_more(alloc, &mut self.replies, more)?,
            Row::Each(each) => add_each(alloc, &mut self.script, each)?,
            Row::EachReply(each) => add_each(alloc, &mut self.replies, each)?,
            Row::Line(line) | Row::Remark(line) => add_line(&mut self.script, line)?,
            Row::Reply(reply) => add_line(&mut self.replies, reply)?,
            Row::Answered { line, reply } => {
                add_line(&mut self.script, line)?;
                add_line(&mut self.replies, reply)?;
            }
            Row::Blank | Row::Case(_) | Row::Section => return Err(CaseError::NoForm),
        }
        Ok(())
    }
}

/// Adds a line and its end.
fn add_line(lines: &mut Vec<u8>, line: &str) -> Result<(), AllocError> {
    lines.extend_from_slice(line.as_bytes())?;
    lines.push(NEWLINE)?;
    Ok(())
}

/// Adds a text to the last line, as often as a row says.
fn add_more(alloc: Global, lines: &mut Vec<u8>, more: Repeated) -> Result<(), CaseError> {
    let text = text_in(alloc, more.quoted)?;
    add_times(lines, text.as_slice(), more.count)?;
    Ok(())
}

/// Adds a text so many times before the end of the last line. Where there is no line, it begins the first.
fn add_times(lines: &mut Vec<u8>, text: &[u8], count: u32) -> Result<(), AllocError> {
    lines.pop();
    for _ in 0..count {
        lines.extend_from_slice(text)?;
    }
    lines.push(NEWLINE)?;
    Ok(())
}

/// Adds a text to the last line for each number from 1 up to that of the row.
fn add_each(alloc: Global, lines: &mut Vec<u8>, each: Repeated) -> Result<(), CaseError> {
    let text = text_in(alloc, each.quoted)?;
    add_counted(alloc, lines, text.as_slice(), each.count)?;
    Ok(())
}

/// Adds a text for each number before the end of the last line.
fn add_counted(
    alloc: Global,
    lines: &mut Vec<u8>,
    text: &[u8],
    count: u32,
) -> Result<(), AllocError> {
    lines.pop();
    for before in 0..count {
        let number = u64::from(before) + 1;
        add_numbered(lines, text, number.to_string(alloc)?.as_bytes())?;
    }
    lines.push(NEWLINE)?;
    Ok(())
}

/// Adds a text, with these digits in place of each `#`.
fn add_numbered(lines: &mut Vec<u8>, text: &[u8], digits: &[u8]) -> Result<(), AllocError> {
    for byte in text {
        match *byte {
            b'#' => lines.extend_from_slice(digits)?,
            byte => lines.push(byte)?,
        }
    }
    Ok(())
}
