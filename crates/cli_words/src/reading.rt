//! Words are read one after another: each goes on with what stood before it, or is refused.

ghost use Rattle.std.specs.Prelude.{◌≡◌, ◌≢◌, Err, IfOk, IfErr};
ghost use Rattle.plain_data.specs.declared.or_no_memory.OrNoMemory.TheVariants as or_no_memory;
ghost use Rattle.cli_words.specs.Forms.{texts, Spells, OneForm};
ghost use Rattle.cli_words.specs.Refusals.{Refuses};
ghost use Rattle.cli_words.specs.code.Reading as spec;
ghost use Rattle.cli_words.specs.code.Answers as code;
ghost use Rattle.cli_words.specs.code.Answers.{Makes, Finishes, Explains, error_of};

use crate::limits::STANDARD_SESSIONS;
use crate::name::{CommandName, OptionName};
use crate::options::Options;
use crate::plan::Plan;
use crate::refusal::{BadWords, Missing, Why, WordsError};
use plain_data::OrNoMemory;
use std::alloc::Global;

/// What words have said so far.
#[derive(Debug, Drop)]
enum Reading {
    /// Nothing: a command is to follow.
    Start,
    /// A command and options. Another option may follow.
    Ready(CommandName, Options),
    /// A command, options, and the name of one whose value is to follow.
    Waiting(CommandName, Options, OptionName),
}

/// What a word makes that is to be a command.
fn begun(word: &str) -> Result<Reading, OrNoMemory<Why>>
    ensures made { Makes result (spec.begun (spec.command_named word.now)) }
    ensures told { result ≢ Err or_no_memory.NoMemory }
{
    match CommandName::named(word) {
        Some(command) => Ok(Reading::Ready(command, Options::new())),
        None => Err(OrNoMemory::Cause(Why::NoCommand)),
    }
}

/// What a value makes of an option.
fn with_value(
    alloc: Global,
    command: CommandName,
    options: Options,
    option: OptionName,
    value: &str,
) -> Result<Reading, OrNoMemory<Why>>
    ensures { Makes result (spec.ready command (spec.with_value option value.now options)) }
{
    match options.with(alloc, option, value) {
        Ok(options) => Ok(Reading::Ready(command, options)),
        Err(refused) => Err(refused),
    }
}

/// The option that the command takes, that is not given yet, and that the word names.
fn free_option(command: CommandName, options: &Options, name: &str) -> Result<OptionName, Why>
    ensures { spec.free_option command options.now (spec.option_named name.now) ≡ result }
{
    let Some(option) = OptionName::named(name) else {
        return Err(Why::NoOption);
    };
    if !command.takes(option) {
        Err(Why::NoOption)
    } else if options.has(option) {
        Err(Why::GivenTwice)
    } else {
        Ok(option)
    }
}

/// What was found without memory, with what is wrong as the cause: it is never told as want of memory.
fn caused<T>(found: Result<T, Why>) -> Result<T, OrNoMemory<Why>>
    ensures made { Makes result found }
    ensures told { result ≢ Err or_no_memory.NoMemory }
{
    match found {
        Ok(it) => Ok(it),
        Err(why) => Err(OrNoMemory::Cause(why)),
    }
}

/// What a word makes that is to be an option, or its name.
fn with_option(
    alloc: Global,
    command: CommandName,
    options: Options,
    word: &str,
) -> Result<Reading, OrNoMemory<Why>>
    ensures { Makes result (spec.with_option command options word.now) }
{
    match word.split_once('=') {
        Some((name, value)) => {
            let option = caused(free_option(command, &options, name))?;
            with_value(alloc, command, options, option, value)
        }
        None => {
            let option = caused(free_option(command, &options, word))?;
            Ok(Reading::Waiting(command, options, option))
        }
    }
}

/// What a server is asked to do, where it is told its address.
fn serving(options: Options) -> Result<Plan, Missing>
    ensures { Finishes (Reading.Ready CommandName.Serve options) result }
{
    let settings = options.settings();
    let Options {
        sessions,
        address,
        file,
        wire,
        ..
    } = options;
    match address {
        Some(address) => Ok(Plan::Serve {
            settings,
            address,
            sessions: sessions.unwrap_or(STANDARD_SESSIONS),
            file,
            wire: wire.unwrap_or(false),
        }),
        None => Err(Missing::Option(OptionName::Address)),
    }
}

/// What an auditor is asked to do, where it is told a file.
fn auditing(options: Options) -> Result<Plan, Missing>
    ensures { Finishes (Reading.Ready CommandName.Audit options) result }
{
    let Options { file, at, .. } = options;
    match file {
        Some(file) => Ok(Plan::Audit { file, at }),
        None => Err(Missing::Option(OptionName::File)),
    }
}

/// What a remote client is asked to do, where it is told the address.
fn reaching(options: Options) -> Result<Plan, Missing>
    ensures { Finishes (Reading.Ready CommandName.Remote options) result }
{
    let Options { address, .. } = options;
    match address {
        Some(address) => Ok(Plan::Remote { address }),
        None => Err(Missing::Option(OptionName::Address)),
    }
}

/// Which load is to be run, where both its numbers are told.
fn loading(options: Options) -> Result<Plan, Missing>
    ensures { Finishes (Reading.Ready CommandName.Load options) result }
{
    let settings = options.settings();
    let Options { seed, count, .. } = options;
    match (seed, count) {
        (Some(seed), Some(count)) => Ok(Plan::Load {
            settings,
            seed,
            count,
        }),
        (None, _) => Err(Missing::Option(OptionName::Seed)),
        (_, None) => Err(Missing::Option(OptionName::Count)),
    }
}

impl Reading {
    /// What a word makes of this.
    #[tactic(auto, unfolding(crate::specs::code::Reading::step))]
    fn with(self, alloc: Global, word: &str) -> Result<Reading, OrNoMemory<Why>>
        ensures { Makes result (spec.step self word.now) }
    {
        match self {
            Reading::Start => begun(word),
            Reading::Ready(command, options) => with_option(alloc, command, options, word),
            Reading::Waiting(command, options, option) => {
                with_value(alloc, command, options, option, word)
            }
        }
    }

    /// What was asked for, where nothing is missing.
    fn finish(self) -> Result<Plan, Missing>
        ensures { Finishes self result }
    {
        match self {
            Reading::Start => Err(Missing::Command),
            Reading::Waiting(_, _, option) => Err(Missing::Value(option)),
            Reading::Ready(CommandName::Run, options) => Ok(Plan::Run(options.settings())),
            Reading::Ready(CommandName::Serve, options) => serving(options),
            Reading::Ready(CommandName::Audit, options) => auditing(options),
            Reading::Ready(CommandName::Remote, options) => reaching(options),
            Reading::Ready(CommandName::Load, options) => loading(options),
        }
    }
}

/// What is said of the word at which reading stopped.
fn stopped_at<'a>(place: usize, word: &'a str, stop: OrNoMemory<Why>) -> WordsError<'a>
    ensures { result ≡ error_of place word.entry stop }
{
    match stop {
        OrNoMemory::Cause(why) => WordsError::BadWords(BadWords::Refused { place, word, why }),
        OrNoMemory::NoMemory => WordsError::NoMemory,
    }
}

/// What is said where no more words come and something is missing.
fn cut_short<'a>(missing: Missing) -> WordsError<'a>
    ensures { result ≡ code.cut_short missing }
{
    WordsError::BadWords(BadWords::CutShort(missing))
}

/// The plan that the words behind the program's name spell, exactly where they are of a form.
pub fn read_words<'a>(alloc: Global, words: &[&'a str]) -> Result<Plan, WordsError<'a>>
    ensures plan { IfOk result (Spells (texts words.now)) }

    // They are of no form, and the first word is named with which none goes on.
    ensures refused { IfErr result (Refuses (texts words.now)) }
    ensures why { IfErr result (Explains (texts words.now)) }
{
    let mut reading = Reading::Start;
    for (place, word) in words.iter().enumerate() {
        match reading.with(alloc, word) {
            Ok(next) => reading = next,
            Err(stop) => return Err(stopped_at(place, word, stop)),
        }
    }
    match reading.finish() {
        Ok(plan) => Ok(plan),
        Err(missing) => Err(cut_short(missing)),
    }
}

/// What holds of the forms.
pub fn laws_of_words()
    // No words spell two plans.
    ensures { OneForm }
{}
