//! What the program says of itself.

ghost use Rattle.std.specs.Prelude.{◌≡◌};
ghost use Rattle.cli_words.specs.Forms.{texts};
ghost use Rattle.cli_words.specs.Questions.{question_in};

use clap::{Arg, ArgAction, Command};
use std::alloc::{AllocError, Global};

/// What the program is asked of itself, in place of a command.
#[derive(Clone, Copy, Debug, PartialEq, Eq)]
pub enum Question {
    Help,
    Version,
}

/// The program's name and version.
pub const VERSION: &str = "diamond 0.1.0";

/// What words ask of the program itself: one word alone does.
pub fn asked(words: &[&str]) -> Option<Question>
    ensures { result ≡ question_in (texts words.now) }
{
    match words {
        [word] if *word == "--help" => Some(Question::Help),
        [word] if *word == "--version" => Some(Question::Version),
        _ => None,
    }
}

/// Commands as they are typed.
const EXAMPLES: [&str; 8] = [
    "\nExamples:\n",
    "  diamond run < sale.txt\n",
    "  diamond serve --address 127.0.0.1:4000 --sessions 100\n",
    "  diamond serve --address 127.0.0.1:4000 --sessions 100 --file sale.journal\n",
    "  diamond audit --file sale.journal --at 100\n",
    "  diamond serve --address 127.0.0.1:4001 --sessions 100 --form wire\n",
    "  diamond remote --address 127.0.0.1:4001 < session.txt\n",
    "  diamond load --seed 1 --count 1000\n",
];

/// What `remote` does, in a line.
const REMOTE_DOES: &str =
    "Run a session, read from the input, over a store that is served elsewhere";

/// What `load` does, in a line.
const LOAD_DOES: &str = "Run the script that a number makes, and count what comes of it";

/// How the program is used: its commands, the options of each, and examples.
pub fn help_text(alloc: Global) -> Result<String, AllocError> {
    let mut text = program(alloc)?.render_help()?;
    text.push_str("\n")?;
    text.push_str(run(alloc)?.render_help()?.as_str())?;
    text.push_str("\n")?;
    text.push_str(serve(alloc)?.render_help()?.as_str())?;
    text.push_str("\n")?;
    text.push_str(audit(alloc)?.render_help()?.as_str())?;
    text.push_str("\n")?;
    text.push_str(remote(alloc)?.render_help()?.as_str())?;
    text.push_str("\n")?;
    text.push_str(load(alloc)?.render_help()?.as_str())?;
    for line in EXAMPLES {
        text.push_str(line)?;
    }
    Ok(text)
}

/// A command without the flags that `clap` gives one by itself.
fn bare<'a>(alloc: Global, name: &'a str, about: &'a str) -> Command<'a> {
    Command::new(alloc, name)
        .about(about)
        .disable_help_flag(true)
        .disable_version_flag(true)
        .disable_help_subcommand(true)
}

fn flag<'a>(alloc: Global, name: &'a str, text: &'a str) -> Arg<'a> {
    Arg::new(alloc, name)
        .long(name)
        .action(ArgAction::SetTrue)
        .help(text)
}

fn option<'a>(alloc: Global, name: &'a str, value: &'a str, text: &'a str) -> Arg<'a> {
    Arg::new(alloc, name)
        .long(name)
        .value_name(value)
        .action(ArgAction::Set)
        .help(text)
}

fn program<'a>(alloc: Global) -> Result<Command<'a>, AllocError> {
    bare(
        alloc,
        "diamond",
        "A transactional store whose watchers see what changed",
    )
    .subcommand(bare(alloc, "run", "Run a script, read from the input"))?
    .subcommand(bare(alloc, "serve", "Serve sessions at an address"))?
    .subcommand(bare(alloc, "audit", "Check the journal in a file"))?
    .subcommand(bare(alloc, "remote", REMOTE_DOES))?
    .subcommand(bare(alloc, "load", LOAD_DOES))?
    .arg(flag(alloc, "help", "Print this"))?
    .arg(flag(alloc, "version", "Print the version"))
}

/// The options of a store.
fn with_settings<'a>(alloc: Global, command: Command<'a>) -> Result<Command<'a>, AllocError> {
    command
        .arg(option(
            alloc,
            "shards",
            "N",
            "How many shards hold the data, from 1 to 16 [default: 4]",
        ))?
        .arg(option(
            alloc,
            "window",
            "W",
            "How many commits back can be read, from 1 to 4096 [default: 4096]",
        ))?
        .arg(option(
            alloc,
            "limit",
            "L",
            "How many commits the journal takes, from 1 to 100000 [default: 100000]",
        ))
}

fn run<'a>(alloc: Global) -> Result<Command<'a>, AllocError> {
    with_settings(
        alloc,
        bare(alloc, "diamond run", "Run a script, read from the input"),
    )
}

fn serve<'a>(alloc: Global) -> Result<Command<'a>, AllocError> {
    let command = bare(alloc, "diamond serve", "Serve sessions at an address")
        .arg(option(
            alloc,
            "address",
            "A",
            "Where to listen, as 127.0.0.1:4000; it must be given",
        ))?
        .arg(option(
            alloc,
            "sessions",
            "S",
            "How many sessions to serve, from 1 to 1000 [default: 1]",
        ))?
        .arg(option(
            alloc,
            "file",
            "P",
            "The file in which commits are kept [default: in memory]",
        ))?
        .arg(option(
            alloc,
            "form",
            "F",
            "Whether links bring lines (text) or requests of remote (wire) [default: text]",
        ))?;
    with_settings(alloc, command)
}

fn audit<'a>(alloc: Global) -> Result<Command<'a>, AllocError> {
    bare(
        alloc,
        "diamond audit",
        "Check that each commit of the journal in a file is what its body does",
    )
    .arg(option(
        alloc,
        "file",
        "P",
        "The file of the journal, which is only read; it must be given",
    ))?
    .arg(option(
        alloc,
        "at",
        "N",
        "Print the state after so many commits too, where the journal is legal",
    ))
}

fn remote<'a>(alloc: Global) -> Result<Command<'a>, AllocError> {
    bare(alloc, "diamond remote", REMOTE_DOES).arg(option(
        alloc,
        "address",
        "A",
        "Where a store is served with --form wire; it must be given",
    ))
}

fn load<'a>(alloc: Global) -> Result<Command<'a>, AllocError> {
    let command = bare(alloc, "diamond load", LOAD_DOES)
        .arg(option(
            alloc,
            "seed",
            "S",
            "The number that makes the script, from 0 to 65535; it must be given",
        ))?
        .arg(option(
            alloc,
            "count",
            "C",
            "How many rounds the script has, from 1 to 40000; it must be given",
        ))?;
    with_settings(alloc, command)
}
