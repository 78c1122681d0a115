//! What comes of a text.

use dtext::{push_natural, push_text};
use plain_data::Text;
use std::alloc::{AllocError, Global};

/// Whether a text is read.
#[derive(Clone, Copy, PartialEq, Eq)]
pub enum Verdict {
    Read,
    /// It is refused at this column, counted from 1.
    RefusedAt(u64),
    /// It is refused, and its reader tells no column.
    Refused,
}

/// What comes of a text.
#[derive(Drop)]
pub struct Answer {
    pub verdict: Verdict,
    /// What the text is printed as, or why it is refused, as far as its reader tells.
    pub told: Text,
}

impl Answer {
    /// A text that is read and is printed so.
    pub fn read(printed: Text) -> Answer {
        Answer {
            verdict: Verdict::Read,
            told: printed,
        }
    }

    /// A text that is refused at a column, for no other cause.
    pub fn refused_at(alloc: Global, column: u32) -> Answer {
        Answer {
            verdict: Verdict::RefusedAt(u64::from(column)),
            told: Text::new(alloc),
        }
    }

    /// The answer as a row has it.
    pub fn print(&self, alloc: Global) -> Result<Text, AllocError> {
        let mut out = Text::new(alloc);
        match self.verdict {
            Verdict::Read => out.push(b'0')?,
            Verdict::RefusedAt(column) => push_natural(&mut out, column)?,
            Verdict::Refused => out.push(b'-')?,
        }
        if !self.told.is_empty() {
            out.extend_from_slice(b" => @ ")?;
            push_text(&mut out, &self.told)?;
        }
        Ok(out)
    }
}
