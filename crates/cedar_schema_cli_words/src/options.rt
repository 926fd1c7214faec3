//! The words that are options.
ghost use Rattle.std.specs.Prelude.{◌≡◌, map};
ghost use Rattle.std.specs.String.{string_bytes};
ghost use Rattle.cedar_schema_cli_words.specs.Words.{command_named, is_dashed, is_report_option, is_layout_option};
ghost use Rattle.cedar_schema_cli_words.specs.Words.{is_option_of, is_unknown, with_word, options_in, default_options};

use crate::asked::{Command, Form, Mode, Options};

/// The command that is called this.
pub fn command_named(word: &str) -> Option<Command>
    ensures { result ≡ command_named word.now }
{
    if word == "check" {
        return Some(Command::Check);
    }
    if word == "format" {
        return Some(Command::Format);
    }
    None
}

// Whether the word begins with a dash, and has more.
pub(crate) fn is_dashed(word: &str) -> bool
    ensures { result ≡ is_dashed word.now }
{
    let bytes = word.as_bytes();
    bytes.len() > 1 && bytes[0] == b'-'
}

// Whether the word is an option of commands that report.
fn is_report_option(word: &str) -> bool
    ensures { result ≡ is_report_option word.now }
{
    word == "--format=human"
        || word == "--format=short"
        || word == "--format=json"
        || word == "--format=github"
        || word == "--all"
}

// Whether the word is an option of the command that lays out.
fn is_layout_option(word: &str) -> bool
    ensures { result ≡ is_layout_option word.now }
{
    word == "--check" || word == "--write"
}

// Whether the command has this option.
fn is_option_of(command: Command, word: &str) -> bool
    ensures { result ≡ is_option_of command word.now }
{
    match command {
        Command::Check => is_report_option(word),
        Command::Format => is_report_option(word) || is_layout_option(word),
    }
}

// Whether the word is to be an option, and the command has none such.
pub(crate) fn is_unknown(command: Command, word: &str) -> bool
    ensures { result ≡ is_unknown command word.now }
{
    is_dashed(word) && !is_option_of(command, word)
}

// The options where no word sets any.
fn default_options() -> Options
    ensures { result ≡ default_options }
{
    Options {
        form: Form::Human,
        all: false,
        mode: Mode::Print,
    }
}

// The options as one more word sets them.
fn with_word(mut options: Options, word: &str) -> Options
    ensures { result ≡ with_word options word.now }
{
    if word == "--format=human" {
        options.form = Form::Human;
    } else if word == "--format=short" {
        options.form = Form::Short;
    } else if word == "--format=json" {
        options.form = Form::Json;
    } else if word == "--format=github" {
        options.form = Form::GitHub;
    } else if word == "--all" {
        options.all = true;
    } else if word == "--check" {
        options.mode = Mode::Name;
    } else if word == "--write" {
        options.mode = Mode::Write;
    }
    options
}

/// The options that the words set: of two that disagree the last one counts.
pub fn options_in(words: &[String]) -> Options
    ensures { result ≡ options_in (map string_bytes words.now) }
{
    let mut options = default_options();
    for word in words {
        options = with_word(options, word.as_str());
    }
    options
}
