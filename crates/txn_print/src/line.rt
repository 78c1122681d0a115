//! The text that is being printed, token by token.

ghost use Rattle.std.specs.Prelude.{◌≡◌, OnOk};
ghost use Rattle.txn_grammar.specs.declared.token.Token.TheVariants as token;
ghost use Rattle.txn_print.specs.Pieces as spec;

use crate::spelling::spelling;
use dtext::print_text;
use plain_data::Text;
use std::alloc::{AllocError, Global};
use txn_grammar::Symbol;

/// What was printed so far, and whether a space may follow it.
#[derive(Debug, Drop)]
pub struct Line {
    pub text: Text,
    pub space: bool,
}

impl Line {
    /// Nothing, which no space follows.
    pub(crate) fn new(alloc: Global) -> Line
        ensures { result ≡ spec.empty }
    {
        Line {
            text: Text::new(alloc),
            space: false,
        }
    }

    /// Adds the bytes of a token, behind a space where one may stand.
    fn put(&mut self, before: bool, bytes: &[u8], after: bool) -> Result<(), AllocError>
        ensures { OnOk result (self.new ≡ spec.put self.old before bytes.now after) }
    {
        if self.space && before {
            self.text.push(b' ')?;
        }
        self.text.extend_from_slice(bytes)?;
        self.space = after;
        Ok(())
    }

    /// Adds a reserved word or a mark with a space on each side.
    pub(crate) fn word(&mut self, symbol: Symbol) -> Result<(), AllocError>
        ensures { OnOk result (self.new ≡ spec.write self.old (spec.word symbol)) }
    {
        self.put(true, spelling(symbol), true)
    }

    /// Adds what opens something.
    pub(crate) fn opening(&mut self, symbol: Symbol) -> Result<(), AllocError>
        ensures { OnOk result (self.new ≡ spec.write self.old (spec.opening symbol)) }
    {
        self.put(true, spelling(symbol), false)
    }

    /// Adds what closes or separates something.
    pub(crate) fn closing(&mut self, symbol: Symbol) -> Result<(), AllocError>
        ensures { OnOk result (self.new ≡ spec.write self.old (spec.closing symbol)) }
    {
        self.put(false, spelling(symbol), true)
    }

    /// Adds what stands inside of an operation.
    pub(crate) fn joining(&mut self, symbol: Symbol) -> Result<(), AllocError>
        ensures { OnOk result (self.new ≡ spec.write self.old (spec.joining symbol)) }
    {
        self.put(false, spelling(symbol), false)
    }

    pub(crate) fn name(&mut self, name: &[u8]) -> Result<(), AllocError>
        ensures { OnOk result (self.new ≡ spec.write self.old (spec.spaced (token.Name name.now))) }
    {
        self.put(true, name, true)
    }

    pub(crate) fn number(&mut self, alloc: Global, value: i64) -> Result<(), AllocError>
        ensures { OnOk result (self.new ≡ spec.write self.old (spec.spaced (token.Number value))) }
    {
        let digits = value.to_string(alloc)?;
        self.put(true, digits.as_bytes(), true)
    }

    /// Adds a text in quotes, with its escapes.
    pub(crate) fn quoted(&mut self, alloc: Global, bytes: &Text) -> Result<(), AllocError>
        ensures { OnOk result (self.new ≡ spec.write self.old (spec.spaced (token.Text bytes.now))) }
    {
        let quoted = print_text(alloc, bytes)?;
        self.put(true, quoted.as_slice(), true)
    }
}
