//! The items that are left to read.

ghost use Rattle.std.specs.Prelude.{◌≡◌, Option, Bool, Ok, drop, length};
ghost use Rattle.std.specs.Option.{option_copied};
ghost use Rattle.std.specs.Fn.{FnOnceReturnsAt, FnReturnsAt};
ghost use Rattle.predictive_parsing.specs.Reading.{next, ahead, one, run, run_up_to};
ghost use Rattle.predictive_parsing.specs.Reads.{Reads, OnlyRefuses, Computes};

use crate::prefix::prefix_len;
use crate::refused::Refused;
use plain_data::OrNoMemory;
use std::marker::Model;

/// The items that are left to read. Each reader either takes what it reads off the front, or refuses and leaves the item
/// that doesn't fit at the front.
#[derive(Debug, Drop)]
pub struct Cursor<'a, I> {
    rest: &'a [I],
}

impl<'a, I> Model for Cursor<'a, I> {
    ghost use Rattle.std.specs.Prelude.{List};

    ghost Value = { List I };

    ghost view = { λ c. c.rest.now };
}

impl<'a, I> Cursor<'a, I> {
    /// At the first of these items.
    pub fn new(rest: &'a [I]) -> Cursor<'a, I>
        ensures { result ≡ rest.now }
    {
        Cursor { rest }
    }

    /// The number of items left.
    pub fn len(&self) -> usize
        ensures { result ≡ length self.now }
    {
        self.rest.len()
    }

    /// The items left, as a slice.
    pub fn as_slice(&self) -> &'a [I]
        ensures { result.now ≡ self.now }
    {
        self.rest
    }

    /// The item ahead.
    pub fn peek(&self) -> Option<&'a I>
        ensures { option_copied result ≡ next self.now }
    {
        self.rest.first()
    }

    /// Whether an item is ahead that passes the test.
    pub fn sees<F: FnOnce(&I) -> bool>(&self, test: F) -> bool
        requires { F.IsAlwaysCallable test }
        ensures { (passes : I → Bool) → Computes (FnOnceReturnsAt F.FnOnce test) passes → result ≡ ahead passes (next self.now) }
    {
        match self.peek() {
            Some(item) => test(item),
            None => false,
        }
    }

    /// Leaves the item ahead behind.
    pub fn skip(&mut self)
        ensures { self.new ≡ drop 1 self.old }
    {
        if let Some((_, behind)) = self.rest.split_first() {
            self.rest = behind;
        }
    }

    /// Takes what `make` makes of the item ahead. Where it makes nothing of it, or there is none, this refuses.
    pub fn take<A, F: FnOnce(&I) -> Option<A>>(&mut self, make: F) -> Result<A, OrNoMemory<Refused>>
        requires { F.IsAlwaysCallable make }
        ensures reads { (f : I → Option A) → Computes (FnOnceReturnsAt F.FnOnce make) f → Reads (one f self.old) result self.new }
        ensures refusal { OnlyRefuses result }
    {
        let Some((item, behind)) = self.rest.split_first() else {
            return Err(OrNoMemory::Cause(Refused));
        };
        let Some(made) = make(item) else {
            return Err(OrNoMemory::Cause(Refused));
        };
        self.rest = behind;
        Ok(made)
    }

    /// Takes the items at the front that pass the test, as many as there are up to a limit.
    pub fn run_up_to<F: Fn(&I) -> bool>(&mut self, limit: usize, test: F) -> &'a [I]
        requires { F.IsAlwaysCallable test }
        ensures { (passes : I → Bool) → Computes (FnReturnsAt F.Fn test) passes → run_up_to limit passes self.old ≡ Ok (result.now, self.new) }
    {
        let (run, behind) = self.rest.split_at(limit.min(prefix_len(self.rest, test)));
        self.rest = behind;
        run
    }

    /// Takes the items at the front that pass the test, as many as there are.
    pub fn run<F: Fn(&I) -> bool>(&mut self, test: F) -> &'a [I]
        requires { F.IsAlwaysCallable test }
        ensures { (passes : I → Bool) → Computes (FnReturnsAt F.Fn test) passes → run passes self.old ≡ Ok (result.now, self.new) }
    {
        let (run, behind) = self.rest.split_at(prefix_len(self.rest, test));
        self.rest = behind;
        run
    }
}
