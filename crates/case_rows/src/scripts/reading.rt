//! How far cases are read, row by row.

use crate::quoted::CaseError;
use crate::scripts::case::Case;
use crate::scripts::row::Row;
use std::alloc::Global;

/// How far cases are read: the case whose rows are being read, if there is one.
#[derive(Drop)]
pub struct Reading<'a> {
    case: Option<Case<'a>>,
}

impl<'a> Reading<'a> {
    /// No row is read.
    pub fn new() -> Reading<'a> {
        Reading { case: None }
    }

    /// Takes the case whose rows have been read, if there is one.
    pub fn take(&mut self) -> Option<Case<'a>> {
        self.case.take()
    }

    /// Goes on with a row. A case that it ends has to be taken before.
    pub fn go_on(&mut self, alloc: Global, row: &'a str) -> Result<(), CaseError> {
        let Some(row) = Row::read(row) else {
            return Err(CaseError::NoForm);
        };
        match (row, &mut self.case) {
            (Row::Case(name), _) => self.case = Some(Case::new(alloc, name)),
            (Row::Section, _) => self.case = None,
            (Row::Blank, _) | (Row::Remark(_), None) => {}
            (row, Some(case)) => case.add(alloc, row)?,
            (_, None) => return Err(CaseError::NoForm),
        }
        Ok(())
    }
}

/// Whether a case ends before a row.
pub fn ends_case(row: &str) -> bool {
    matches!(Row::read(row), Some(Row::Case(_) | Row::Section))
}
