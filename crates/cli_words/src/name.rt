//! The names of commands and options.

ghost use Rattle.std.specs.Prelude.{◌≡◌};
ghost use Rattle.cli_words.specs.Forms.{command_word, option_word};
ghost use Rattle.cli_words.specs.code.Reading as spec;

/// What the program can be asked to do.
#[derive(Clone, Copy, Debug, PartialEq, Eq)]
pub enum CommandName {
    Run,
    Serve,
    Audit,
    Remote,
    Load,
}

/// What can be told of a command.
#[derive(Clone, Copy, Debug, PartialEq, Eq)]
pub enum OptionName {
    Shards,
    Window,
    Limit,
    Sessions,
    Address,
    File,
    At,
    Form,
    Seed,
    Count,
}

/// All commands.
pub(crate) const COMMANDS: [CommandName; 5] = [
    CommandName::Run,
    CommandName::Serve,
    CommandName::Audit,
    CommandName::Remote,
    CommandName::Load,
];

/// All options.
pub(crate) const OPTIONS: [OptionName; 10] = [
    OptionName::Shards,
    OptionName::Window,
    OptionName::Limit,
    OptionName::Sessions,
    OptionName::Address,
    OptionName::File,
    OptionName::At,
    OptionName::Form,
    OptionName::Seed,
    OptionName::Count,
];

impl CommandName {
    /// The word that names the command.
    pub fn word(self) -> &'static str
        ensures { result.now ≡ command_word self }
    {
        match self {
            CommandName::Run => "run",
            CommandName::Serve => "serve",
            CommandName::Audit => "audit",
            CommandName::Remote => "remote",
            CommandName::Load => "load",
        }
    }

    /// The command that a word names.
    pub(crate) fn named(word: &str) -> Option<CommandName>
        ensures { result ≡ spec.command_named word.now }
    {
        COMMANDS
            .iter()
            .copied()
            .find(|command| command.word() == word)
    }

    /// Whether the command takes the option.
    pub(crate) fn takes(self, option: OptionName) -> bool
        ensures { result ≡ spec.takes self option }
    {
        match self {
            CommandName::Run => option.is_setting(),
            CommandName::Serve => option != OptionName::At && !option.is_of_load(),
            CommandName::Audit => option == OptionName::File || option == OptionName::At,
            CommandName::Remote => option == OptionName::Address,
            CommandName::Load => option.is_setting() || option.is_of_load(),
        }
    }
}

impl OptionName {
    /// The word that names the option.
    pub fn word(self) -> &'static str
        ensures { result.now ≡ option_word self }
    {
        match self {
            OptionName::Shards => "--shards",
            OptionName::Window => "--window",
            OptionName::Limit => "--limit",
            OptionName::Sessions => "--sessions",
            OptionName::Address => "--address",
            OptionName::File => "--file",
            OptionName::At => "--at",
            OptionName::Form => "--form",
            OptionName::Seed => "--seed",
            OptionName::Count => "--count",
        }
    }

    /// Whether it is one of a store's settings.
    fn is_setting(self) -> bool
        ensures { result ≡ spec.is_setting self }
    {
        match self {
            OptionName::Shards | OptionName::Window | OptionName::Limit => true,
            _ => false,
        }
    }

    /// Whether it is one of those that say which load is made.
    fn is_of_load(self) -> bool
        ensures { result ≡ spec.is_of_load self }
    {
        match self {
            OptionName::Seed | OptionName::Count => true,
            _ => false,
        }
    }

    /// The option that a word names.
    pub(crate) fn named(word: &str) -> Option<OptionName>
        ensures { result ≡ spec.option_named word.now }
    {
        OPTIONS.iter().copied().find(|option| option.word() == word)
    }
}
