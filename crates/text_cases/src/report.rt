//! What is told of the rows that are tried.

use crate::row::Row;
use dio_core::{Line, LineFault, Source, next_line};
use dtext::push_natural;
use plain_data::{OrNoMemory, Text};
use predictive_parsing::Refused;
use std::alloc::{AllocError, Global};

/// How many rows were tried, how many of them don't hold, and what is told of these.
#[derive(Drop)]
pub struct Report {
    tried: u64,
    failed: u64,
    told: Text,
}

/// What comes of the row of a line, unless it is what the row says.
fn other_answer(alloc: Global, line: &[u8]) -> Result<Option<Text>, OrNoMemory<Refused>> {
    let row = Row::read(alloc, line)?;
    let answer = row.try_text(alloc)?;
    if row.holds(&answer) {
        Ok(None)
    } else {
        Ok(Some(answer.print(alloc)?))
    }
}

impl Report {
    /// Of no row.
    pub fn new(alloc: Global) -> Report {
        Report {
            tried: 0,
            failed: 0,
            told: Text::new(alloc),
        }
    }

    /// Tells what came of a line in place of what it says.
    fn tell(&mut self, line: u64, came: &[u8]) -> Result<(), AllocError> {
        self.failed = self.failed.saturating_add(1);
        self.told.extend_from_slice(b"line ")?;
        push_natural(&mut self.told, line)?;
        self.told.extend_from_slice(b": ")?;
        self.told.extend_from_slice(came)?;
        self.told.push(b'\n')
    }

    /// Tries the row of a line, which is one unless it is empty or a remark.
    fn add(&mut self, alloc: Global, number: u64, line: &[u8]) -> Result<(), AllocError> {
        if line.is_empty() || line.starts_with(b"#") {
            return Ok(());
        }
        self.tried = self.tried.saturating_add(1);
        match other_answer(alloc, line) {
            Ok(None) => Ok(()),
            Ok(Some(came)) => self.tell(number, came.as_slice()),
            Err(OrNoMemory::Cause(Refused)) => self.tell(number, b"this is no row"),
            Err(OrNoMemory::NoMemory) => Err(AllocError),
        }
    }

    /// Tells of a line that is too long to be a row.
    fn refuse(&mut self, number: u64) -> Result<(), AllocError> {
        self.tried = self.tried.saturating_add(1);
        self.tell(number, b"this is no row: it is too long")
    }

    /// Tries the rows that a source has left.
    pub fn read<S: Source>(&mut self, alloc: Global, source: &mut S) -> Result<(), LineFault> {
        for number in 1..u64::MAX {
            match next_line(alloc, source)? {
                Line::Bytes(line) => self.add(alloc, number, line.as_slice())?,
                Line::TooLong => self.refuse(number)?,
                Line::End => break,
            }
        }
        Ok(())
    }

    /// Tells how many rows were tried.
    pub fn end(&mut self) -> Result<(), AllocError> {
        push_natural(&mut self.told, self.tried)?;
        self.told.extend_from_slice(b" texts\n")
    }

    /// What is told.
    pub fn as_slice(&self) -> &[u8] {
        self.told.as_slice()
    }

    /// Whether each row was one, and held.
    pub fn all_hold(&self) -> bool {
        self.failed == 0
    }
}
