//! The words behind a command.
ghost use Rattle.std.specs.Prelude.{◌≡◌, ◌++◌, [], ◌∷◌, List, ℕ, map, filter, MatchOption, IfOk, OnOk};
ghost use Rattle.std.specs.String.{string_bytes};
ghost use Rattle.cedar_schema_cli_words.specs.Words.{is_unknown, is_name};

use crate::asked::Command;
use crate::options::{is_dashed, is_unknown};
use std::alloc::{AllocError, Global};

// The first word that is to be an option, where the command has none such.
pub(crate) fn first_unknown<'a>(command: Command, words: &'a [String]) -> Option<&'a str>
    ensures { MatchOption result (filter (is_unknown command) (map string_bytes words.now) ≡ []) (λ word.
        (rest : List (List ℕ)) × (filter (is_unknown command) (map string_bytes words.now) ≡ word.now ∷ rest)) }
{
    for word in words {
        if is_unknown(command, word.as_str()) {
            return Some(word.as_str());
        }
    }
    None
}

// Adds the word, where it names an input.
fn push_name(alloc: Global, names: &mut Vec<String>, word: &str) -> Result<(), AllocError>
    ensures { OnOk result (map string_bytes names.new.items
        ≡ map string_bytes names.old.items ++ filter is_name (word.now ∷ [])) }
{
    if is_dashed(word) {
        return Ok(());
    }
    names.push(String::from_str(alloc, word)?)?;
    Ok(())
}

// The words that name inputs, in order.
pub(crate) fn names_in(alloc: Global, words: &[String]) -> Result<Vec<String>, AllocError>
    ensures { IfOk result (λ names. map string_bytes names.items ≡ filter is_name (map string_bytes words.now)) }
{
    let mut names = Vec::new(alloc);
    for word in words {
        push_name(alloc, &mut names, word.as_str())?;
    }
    Ok(names)
}
