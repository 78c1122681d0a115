//! How far cases are read, row by row.

use crate::files::case::Case;
use crate::files::row::{Act, Row};
use crate::quoted::{CaseError, text_in};
use plain_data::Text;
use std::alloc::Global;

/// How far cases are read.
#[derive(Drop)]
pub struct Reading<'a> {
    /// The case whose rows are being read.
    case: Option<Case<'a>>,
    /// The file with which cases of a section may begin.
    whole: Text,
    /// How many cases there were.
    cases: u32,
}

impl<'a> Reading<'a> {
    /// No row is read.
    pub fn new(alloc: Global) -> Reading<'a> {
        Reading {
            case: None,
            whole: Text::new(alloc),
            cases: 0,
        }
    }

    /// How many cases there were.
    pub fn cases(&self) -> u32 {
        self.cases
    }

    /// The case whose rows are being read, if there is one.
    pub fn case(&mut self) -> Option<&mut Case<'a>> {
        self.case.as_mut()
    }

    /// Ends the case whose rows have been read, if there is one. What it says has to be done.
    pub fn finish(&mut self) -> Result<(), CaseError> {
        match self.case.take() {
            Some(case) if case.is_begun() => Err(CaseError::NoForm),
            _ => Ok(()),
        }
    }

    /// Begins a case.
    fn begin(&mut self, alloc: Global, name: &'a str) -> Result<(), CaseError> {
        let done = self.finish();
        self.cases = self.cases.saturating_add(1);
        self.case = Some(Case::new(alloc, name));
        done
    }

    /// Begins a section.
    fn begin_section(&mut self) -> Result<(), CaseError> {
        self.whole.truncate(0);
        self.finish()
    }

    /// Adds a text to the file with which cases of the section may begin.
    fn add_whole(&mut self, alloc: Global, quoted: &str) -> Result<(), CaseError> {
        let more = text_in(alloc, quoted)?;
        self.whole.extend_from_slice(more.as_slice())?;
        Ok(())
    }

    /// Goes on with a row that asks for nothing to be done. A case ends where another begins, or a section does.
    fn change(&mut self, alloc: Global, row: Row<'a>) -> Result<(), CaseError> {
        match (row, &mut self.case) {
            (Row::Blank, _) => Ok(()),
            (Row::Case(name), _) => self.begin(alloc, name),
            (Row::Section, _) => self.begin_section(),
            (Row::Whole(quoted), None) => self.add_whole(alloc, quoted),
            (Row::Begin, Some(case)) => {
                case.file = Text::from_slice(alloc, self.whole.as_slice())?;
                Ok(())
            }
            (row, Some(case)) => case.add(alloc, row),
            (_, None) => Err(CaseError::NoForm),
        }
    }

    /// Goes on with a row, and gives what is to be done in the case that is being read, if the row asks for it.
    pub fn go_on(&mut self, alloc: Global, row: &'a str) -> Result<Option<Act>, CaseError> {
        match Row::read(row) {
            Some(Row::Act(act)) => Ok(Some(act)),
            Some(row) => {
                self.change(alloc, row)?;
                Ok(None)
            }
            None => Err(CaseError::NoForm),
        }
    }
}
