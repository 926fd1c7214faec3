//! What all words of the command line ask for.
ghost use Rattle.std.specs.Prelude.{◌≡◌, [], ◌∷◌, List, ℕ, filter, map, IfOk};
ghost use Rattle.std.specs.String.{string_bytes};
ghost use Rattle.cedar_schema_cli_words.specs.Words.{asked_in, asked_behind, is_unknown, on_names, options_in, is_name};
ghost use Rattle.cedar_schema_cli_words.specs.Readings.{reading_of};

use crate::asked::{Asked, Command};
use crate::behind::{first_unknown, names_in};
use crate::fault::WordFault;
use crate::options::{command_named, options_in};
use std::alloc::{AllocError, Global};

/// What was read of words.
#[derive(Drop)]
pub enum Words {
    /// What they ask for.
    Right(Asked),
    /// What is wrong with them.
    Wrong(WordFault),
}

// What is asked for, where one name is there at least.
fn on_names(command: Command, words: &[String], names: Vec<String>) -> Words
    ensures { reading_of result ≡ on_names command (options_in (map string_bytes words.now))
        (map string_bytes names.items) }
{
    if names.is_empty() {
        return Words::Wrong(WordFault::NoNames);
    }
    Words::Right(Asked {
        command,
        options: options_in(words),
        names,
    })
}

// What the words behind the command ask for.
fn read_behind(alloc: Global, command: Command, words: &[String]) -> Result<Words, AllocError>
    ensures { IfOk result (λ read. reading_of read ≡ asked_behind command (map string_bytes words.now)) }
{
    if let Some(word) = first_unknown(command, words) {
        let word = String::from_str(alloc, word)?;
        return Ok(Words::Wrong(WordFault::NoSuchOption(word)));
    }
    let names = names_in(alloc, words)?;
    Ok(on_names(command, words, names))
}

/// What the words after the program's name ask for, or what is wrong with them. It errs when out of memory.
pub fn read_words(alloc: Global, words: &[String]) -> Result<Words, AllocError>
    ensures { IfOk result (λ read. reading_of read ≡ asked_in (map string_bytes words.now)) }
{
    let Some((first, others)) = words.split_first() else {
        return Ok(Words::Wrong(WordFault::NoCommand));
    };
    match command_named(first.as_str()) {
        Some(command) => read_behind(alloc, command, others),
        None => {
            let word = String::from_str(alloc, first.as_str())?;
            Ok(Words::Wrong(WordFault::NoSuchCommand(word)))
        }
    }
}
