//! What the program says of itself.

use cli_words::{CommandName, OptionName, Question, VERSION, asked, help_text, laws_of_words};

#[test]
fn questions_are_asked_by_one_word(rt: HostRuntime) {
    assert!(rt; asked(&["--help"]) == Some(Question::Help));
    assert!(rt; asked(&["--version"]) == Some(Question::Version));
    for words in [[].as_slice(), &["run", "--help"], &["help"]] {
        assert!(rt; asked(words).is_none());
    }
    assert!(rt; VERSION.starts_with("diamond "));
}

/// Whether the help names each of these.
fn helps(text: &str, words: &[&str]) -> bool {
    for word in words {
        if !text.contains(word) {
            return false;
        }
    }
    true
}

/// Whether the help names each command, each option and each question.
fn names_all(text: &str) -> bool {
    for option in [
        OptionName::Shards,
        OptionName::Window,
        OptionName::Limit,
        OptionName::Sessions,
        OptionName::Address,
        OptionName::File,
        OptionName::At,
        OptionName::Form,
        OptionName::Seed,
        OptionName::Count,
    ] {
        if !helps(text, &[option.word()]) {
            return false;
        }
    }
    helps(
        text,
        &[
            CommandName::Run.word(),
            CommandName::Serve.word(),
            CommandName::Audit.word(),
            CommandName::Remote.word(),
            CommandName::Load.word(),
            "--help",
            "--version",
        ],
    )
}

#[test]
fn help_names_each_command_and_option(rt: HostRuntime) {
    let text = help_text(rt.alloc());
    assert!(rt; matches!(&text, Ok(text) if names_all(text.as_str())));
    laws_of_words();
}
