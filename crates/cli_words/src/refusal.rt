//! Why words are refused.

use crate::name::{CommandName, OptionName};
use std::alloc::AllocError;
use thiserror::Error;

/// Why a word was refused.
#[derive(Clone, Copy, Debug, PartialEq, Eq, Error)]
pub enum Why {
    #[error("there is no such command")]
    NoCommand,
    #[error("the command has no such option")]
    NoOption,
    #[error("the option is given twice")]
    GivenTwice,
    #[error("the value is not a number from {0} to {1}")]
    NotANumber(u64, u64),
    #[error("this is no address")]
    NotAnAddress,
    #[error("this is no path")]
    NotAPath,
    #[error("the form is neither text nor wire")]
    NotAForm,
}

/// What is missing where the words end too early.
#[derive(Clone, Copy, Debug, PartialEq, Eq, Error)]
pub enum Missing {
    #[error("a command is missing")]
    Command,
    #[error("the value of `{}` is missing", .0.word())]
    Value(OptionName),
    #[error("`{}` is missing", .0.word())]
    Option(OptionName),
}

/// Words that are of no form.
#[derive(Clone, Copy, Debug, PartialEq, Eq, Error)]
pub enum BadWords<'a> {
    /// The word at this place, counted from 0, is refused.
    #[error("`{word}`: {why}")]
    Refused {
        place: usize,
        word: &'a str,
        why: Why,
    },
    /// Each word could stand where it does, and more should follow.
    #[error("{0}")]
    CutShort(Missing),
}

/// Why no plan was read.
#[derive(Clone, Copy, Debug, PartialEq, Eq, Error)]
pub enum WordsError<'a> {
    #[error("{0}")]
    BadWords(BadWords<'a>),
    #[error("there is no memory")]
    NoMemory,
}
