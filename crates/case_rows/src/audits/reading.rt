//! How far cases are read, row by row.

use crate::audits::case::{Case, Given};
use crate::audits::row::{Act, Row};
use crate::quoted::CaseError;
use std::alloc::{AllocError, Global};

/// How far cases are read.
#[derive(Drop)]
pub struct Reading<'a> {
    /// What cases of the section may begin with.
    given: Given,
    /// The case whose rows are being read.
    case: Option<Case<'a>>,
    /// How many cases there were.
    cases: u32,
}

impl<'a> Reading<'a> {
    /// No row is read.
    pub fn new(alloc: Global) -> Reading<'a> {
        Reading {
            given: Given::new(alloc),
            case: None,
            cases: 0,
        }
    }

    /// How many cases there were.
    pub fn cases(&self) -> u32 {
        self.cases
    }

    /// The case whose rows are being read, if there is one.
    pub fn case(&self) -> Option<&Case<'a>> {
        self.case.as_ref()
    }

    /// Begins a case with what the section has.
    fn begin(&mut self, name: &'a str) -> Result<(), AllocError> {
        self.cases = self.cases.saturating_add(1);
        let given = self.given.copy()?;
        self.case = Some(Case { name, given });
        Ok(())
    }

    /// Begins a section.
    fn begin_section(&mut self, alloc: Global) {
        self.case = None;
        self.given = Given::new(alloc);
    }

    /// Changes the commits or the file of the case, or of the section where no case has begun.
    fn change(&mut self, alloc: Global, row: Row<'a>) -> Result<(), CaseError> {
        match &mut self.case {
            Some(case) => case.given.change(alloc, row),
            None => self.given.change(alloc, row),
        }
    }

    /// Goes on with a row, and gives what is to be done in the case that is being read, if the row asks for it.
    pub fn go_on(&mut self, alloc: Global, row: &'a str) -> Result<Option<Act<'a>>, CaseError> {
        match Row::read(row) {
            None => return Err(CaseError::NoForm),
            Some(Row::Act(act)) => return Ok(Some(act)),
            Some(Row::Blank) => {}
            Some(Row::Section) => self.begin_section(alloc),
            Some(Row::Case(name)) => self.begin(name)?,
            Some(row) => self.change(alloc, row)?,
        }
        Ok(None)
    }
}
