//! What options have given so far.

ghost use Rattle.std.specs.Prelude.{◌≡◌, ◌≢◌, Err};
ghost use Rattle.plain_data.specs.declared.or_no_memory.OrNoMemory.TheVariants as or_no_memory;
ghost use Rattle.cli_words.specs.Forms.{nothing_given, HasSettings};
ghost use Rattle.cli_words.specs.code.Reading as spec;
ghost use Rattle.cli_words.specs.code.Answers.{Makes, Finds, Admits};

use crate::limits::{LEAST_COUNT, LEAST_SESSIONS, MOST_AT, MOST_COUNT, MOST_SEED, MOST_SESSIONS};
use crate::name::OptionName;
use crate::number::number_within;
use crate::refusal::Why;
use plain_data::{OrNoMemory, Text};
use rdt_types::{
    LEAST_COMMITS, LEAST_SHARDS, LEAST_WINDOW, MOST_COMMITS, MOST_SHARDS, MOST_WINDOW,
    STANDARD_COMMITS, STANDARD_SHARDS, STANDARD_WINDOW, Settings,
};
use std::alloc::Global;
use std::marker::Model;

/// What options have given, and nothing for those that were not given.
#[derive(Debug, Drop)]
pub(crate) struct Options {
    shards: Option<u8>,
    window: Option<u16>,
    limit: Option<u32>,
    pub(crate) sessions: Option<u32>,
    pub(crate) address: Option<Text>,
    pub(crate) file: Option<Text>,
    pub(crate) at: Option<u64>,
    pub(crate) wire: Option<bool>,
    pub(crate) seed: Option<u32>,
    pub(crate) count: Option<u32>,
}

impl Model for Options {
    ghost use Rattle.std.specs.Prelude.{◌≤◌};
    ghost use Rattle.std.specs.Option.{ForSome};
    ghost use Rattle.rdt_types.specs.declared.limits.TheConstants.{LEAST_SHARDS, MOST_SHARDS, LEAST_WINDOW, MOST_WINDOW, LEAST_COMMITS, MOST_COMMITS};
    ghost use Rattle.cli_words.specs.Forms.{Given};

    ghost Value = { Given };

    ghost view = { λ o. record {
      shards = o.shards;
      window = o.window;
      limit = o.limit;
      sessions = o.sessions;
      address = o.address;
      file = o.file;
      at = o.at;
      wire = o.wire;
      seed = o.seed;
      count = o.count;
    } };

    ghost invariant = { λ o.
        ForSome o.shards (λ n. (LEAST_SHARDS ≤ n) × (n ≤ MOST_SHARDS))
        × ForSome o.window (λ n. (LEAST_WINDOW ≤ n) × (n ≤ MOST_WINDOW))
        × ForSome o.limit (λ n. (LEAST_COMMITS ≤ n) × (n ≤ MOST_COMMITS)) };
}

impl Options {
    /// Nothing is given.
    pub(crate) fn new() -> Options
        ensures { result ≡ nothing_given }
    {
        Options {
            shards: None,
            window: None,
            limit: None,
            sessions: None,
            address: None,
            file: None,
            at: None,
            wire: None,
            seed: None,
            count: None,
        }
    }

    /// Whether the option is given.
    pub(crate) fn has(&self, option: OptionName) -> bool
        ensures { result ≡ spec.is_given option self.now }
    {
        match option {
            OptionName::Shards => self.shards.is_some(),
            OptionName::Window => self.window.is_some(),
            OptionName::Limit => self.limit.is_some(),
            OptionName::Sessions => self.sessions.is_some(),
            OptionName::Address => self.address.is_some(),
            OptionName::File => self.file.is_some(),
            OptionName::At => self.at.is_some(),
            OptionName::Form => self.wire.is_some(),
            OptionName::Seed => self.seed.is_some(),
            OptionName::Count => self.count.is_some(),
        }
    }

    /// What is given with this value of an option.
    pub(crate) fn with(
        self,
        alloc: Global,
        option: OptionName,
        value: &str,
    ) -> Result<Options, OrNoMemory<Why>>
        ensures { Makes result (spec.with_value option value.now self) }
    {
        match option {
            OptionName::Shards => self.with_shards(value),
            OptionName::Window => self.with_window(value),
            OptionName::Limit => self.with_limit(value),
            OptionName::Sessions => self.with_sessions(value),
            OptionName::Address => self.with_address(alloc, value),
            OptionName::File => self.with_file(alloc, value),
            OptionName::At => self.with_at(value),
            OptionName::Form => self.with_form(value),
            OptionName::Seed => self.with_seed(value),
            OptionName::Count => self.with_count(value),
        }
    }

    fn with_shards(mut self, value: &str) -> Result<Options, OrNoMemory<Why>>
        ensures made { Makes result (spec.with_value OptionName.Shards value.now self) }
        ensures told { result ≢ Err or_no_memory.NoMemory }
    {
        match number_between(u64::from(LEAST_SHARDS), u64::from(MOST_SHARDS), value) {
            Ok(n) => {
                self.shards = Some(n as u8);
                Ok(self)
            }
            Err(why) => Err(OrNoMemory::Cause(why)),
        }
    }

    fn with_window(mut self, value: &str) -> Result<Options, OrNoMemory<Why>>
        ensures made { Makes result (spec.with_value OptionName.Window value.now self) }
        ensures told { result ≢ Err or_no_memory.NoMemory }
    {
        match number_between(u64::from(LEAST_WINDOW), u64::from(MOST_WINDOW), value) {
            Ok(n) => {
                self.window = Some(n as u16);
                Ok(self)
            }
            Err(why) => Err(OrNoMemory::Cause(why)),
        }
    }

    fn with_limit(mut self, value: &str) -> Result<Options, OrNoMemory<Why>>
        ensures made { Makes result (spec.with_value OptionName.Limit value.now self) }
        ensures told { result ≢ Err or_no_memory.NoMemory }
    {
        match number_between(u64::from(LEAST_COMMITS), u64::from(MOST_COMMITS), value) {
            Ok(n) => {
                self.limit = Some(n as u32);
                Ok(self)
            }
            Err(why) => Err(OrNoMemory::Cause(why)),
        }
    }

    fn with_sessions(mut self, value: &str) -> Result<Options, OrNoMemory<Why>>
        ensures made { Makes result (spec.with_value OptionName.Sessions value.now self) }
        ensures told { result ≢ Err or_no_memory.NoMemory }
    {
        match number_between(u64::from(LEAST_SESSIONS), u64::from(MOST_SESSIONS), value) {
            Ok(n) => {
                self.sessions = Some(n as u32);
                Ok(self)
            }
            Err(why) => Err(OrNoMemory::Cause(why)),
        }
    }

    fn with_address(mut self, alloc: Global, value: &str) -> Result<Options, OrNoMemory<Why>>
        ensures { Makes result (spec.with_value OptionName.Address value.now self) }
    {
        placed(value, Why::NotAnAddress)?;
        self.address = Some(Text::from_slice(alloc, value.as_bytes())?);
        Ok(self)
    }

    fn with_file(mut self, alloc: Global, value: &str) -> Result<Options, OrNoMemory<Why>>
        ensures { Makes result (spec.with_value OptionName.File value.now self) }
    {
        placed(value, Why::NotAPath)?;
        self.file = Some(Text::from_slice(alloc, value.as_bytes())?);
        Ok(self)
    }

    fn with_at(mut self, value: &str) -> Result<Options, OrNoMemory<Why>>
        ensures made { Makes result (spec.with_value OptionName.At value.now self) }
        ensures told { result ≢ Err or_no_memory.NoMemory }
    {
        match number_between(0, MOST_AT, value) {
            Ok(n) => {
                self.at = Some(n);
                Ok(self)
            }
            Err(why) => Err(OrNoMemory::Cause(why)),
        }
    }

    fn with_form(mut self, value: &str) -> Result<Options, OrNoMemory<Why>>
        ensures made { Makes result (spec.with_value OptionName.Form value.now self) }
        ensures told { result ≢ Err or_no_memory.NoMemory }
    {
        match wire_named(value) {
            Some(wire) => {
                self.wire = Some(wire);
                Ok(self)
            }
            None => Err(OrNoMemory::Cause(Why::NotAForm)),
        }
    }

    fn with_seed(mut self, value: &str) -> Result<Options, OrNoMemory<Why>>
        ensures made { Makes result (spec.with_value OptionName.Seed value.now self) }
        ensures told { result ≢ Err or_no_memory.NoMemory }
    {
        match number_between(0, u64::from(MOST_SEED), value) {
            Ok(n) => {
                self.seed = Some(n as u32);
                Ok(self)
            }
            Err(why) => Err(OrNoMemory::Cause(why)),
        }
    }

    fn with_count(mut self, value: &str) -> Result<Options, OrNoMemory<Why>>
        ensures made { Makes result (spec.with_value OptionName.Count value.now self) }
        ensures told { result ≢ Err or_no_memory.NoMemory }
    {
        match number_between(u64::from(LEAST_COUNT), u64::from(MOST_COUNT), value) {
            Ok(n) => {
                self.count = Some(n as u32);
                Ok(self)
            }
            Err(why) => Err(OrNoMemory::Cause(why)),
        }
    }

    /// The settings that are given, and the standard ones where none are.
    pub(crate) fn settings(&self) -> Settings
        ensures { HasSettings self.now result }
    {
        Settings {
            shards: self.shards.unwrap_or(STANDARD_SHARDS),
            window: self.window.unwrap_or(STANDARD_WINDOW),
            limit: self.limit.unwrap_or(STANDARD_COMMITS),
        }
    }
}

/// The number from `least` to `most` whose decimal form the word is.
fn number_between(least: u64, most: u64, word: &str) -> Result<u64, Why>
    ensures { Finds least most (spec.number_within least most word.now) result }
{
    match number_within(least, most, word) {
        Some(n) => Ok(n),
        None => Err(Why::NotANumber(least, most)),
    }
}

/// Whether a word can be an address or a path.
fn is_place(word: &str) -> bool
    ensures { result ≡ spec.is_place word.now }
{
    match word.as_bytes() {
        [] => false,
        [first, ..] => *first != b'-',
    }
}

/// Refuses a word that can be no address and no path, which is never told as want of memory.
fn placed(word: &str, why: Why) -> Result<(), OrNoMemory<Why>>
    ensures { Admits result why (spec.is_place word.now) }
{
    if is_place(word) {
        Ok(())
    } else {
        Err(OrNoMemory::Cause(why))
    }
}

/// Whether sessions take requests of the wire, by the word that names their form.
fn wire_named(word: &str) -> Option<bool>
    ensures { result ≡ spec.wire_named word.now }
{
    if word == "text" {
        Some(false)
    } else if word == "wire" {
        Some(true)
    } else {
        None
    }
}
