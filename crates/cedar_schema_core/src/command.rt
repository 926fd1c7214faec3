ghost use Rattle.std.specs.Prelude.{◌≡◌, ◌≤◌, ℕ, [], ◌∷◌, IfOk, MatchOption, map, decimal};
ghost use Rattle.std.specs.Str.{bytes_eq};
ghost use Rattle.std.specs.String.{string_bytes};
ghost use Rattle.schema_generate.specs.Generated.{max_size};
ghost use Rattle.cedar_schema_core.specs.Commands.{Asks, IsTableInOrder, IsStandard};

use crate::json_texts::JsonForm;
use crate::tables::table_of_names;
use cedar_names::ExtensionTable;
use itoa::Buffer;
use schema_generate::MAX_SIZE;
use std::alloc::{AllocError, Global};

/// A command of the program, with the table of extension types under which it reads its text.
#[derive(Drop)]
pub enum Command {
    /// Writes the canonical text of the input's meaning.
    Recover(ExtensionTable),
    /// Writes how many entity types and actions the input's meaning holds.
    Check(ExtensionTable),
    /// Writes the JSON of the input's fragment.
    ToJson(ExtensionTable),
    /// Writes the canonical text of the meaning of an input that is JSON in this form.
    FromJson(JsonForm, ExtensionTable),
    /// Writes how much the text of this size holds, which the program makes.
    Generate(u32, ExtensionTable),
}

impl Command {
    /// The command that the words after the program's name ask for, where they ask for one.
    pub fn of_words(alloc: Global, words: &[String]) -> Result<Option<Command>, AllocError>
        ensures { IfOk result (λ command. MatchOption command
            ((c : Command) → Asks (map string_bytes words.now) c → ⊥) (Asks (map string_bytes words.now))) }
    {
        let Some((first, names)) = words.split_first() else {
            return Ok(None);
        };
        match first.as_str() {
            "recover" => {
                if names.is_empty() {
                    return Ok(Some(Command::Recover(ExtensionTable::all_available(alloc)?)));
                }
                Ok(None)
            }
            "check" => {
                if names.is_empty() {
                    return Ok(Some(Command::Check(ExtensionTable::all_available(alloc)?)));
                }
                Ok(None)
            }
            "to-json" => {
                if names.is_empty() {
                    return Ok(Some(Command::ToJson(ExtensionTable::all_available(alloc)?)));
                }
                Ok(None)
            }
            "from-json" => {
                if names.is_empty() {
                    let table = ExtensionTable::all_available(alloc)?;
                    return Ok(Some(Command::FromJson(JsonForm::Current, table)));
                }
                Ok(None)
            }
            "from-deprecated" => {
                if names.is_empty() {
                    let table = ExtensionTable::all_available(alloc)?;
                    return Ok(Some(Command::FromJson(JsonForm::Deprecated, table)));
                }
                Ok(None)
            }
            "recover-with" => recover_with(alloc, names),
            "generate" => generate(alloc, names),
            _ => Ok(None),
        }
    }
}

// The command under the table of these names, where they make one.
fn recover_with(alloc: Global, names: &[String]) -> Result<Option<Command>, AllocError>
    ensures { IfOk result (λ command. MatchOption command
        ((table : ExtensionTable) → IsTableInOrder (map string_bytes names.now) table → ⊥)
        (λ c. (table : ExtensionTable) × (c ≡ Command.Recover table)
        × IsTableInOrder (map string_bytes names.now) table)) }
{
    match table_of_names(alloc, names)? {
        Some(table) => Ok(Some(Command::Recover(table))),
        None => Ok(None),
    }
}

// The size that a word says in decimal, of a text that can be made.
fn size_of(word: &str) -> Option<u32>
    ensures { MatchOption result ((size : ℕ) → 1 ≤ size → size ≤ max_size → word.now ≡ decimal size → ⊥)
        (λ size. (1 ≤ size) × (size ≤ max_size) × (word.now ≡ decimal size)) }
{
    let Ok(size) = word.parse::<u32>() else {
        return None;
    };
    if 1 <= size && size <= MAX_SIZE && is_decimal(word, size) {
        return Some(size);
    }
    None
}

// Whether the word is the size in decimal, without a sign and without a zero in front.
fn is_decimal(word: &str, size: u32) -> bool
    ensures { result ≡ bytes_eq (decimal size) word.now }
{
    let mut buffer = Buffer::new();
    buffer.format(size) == word
}

// The command that makes a text of the size that the one word says.
fn generate(alloc: Global, sizes: &[String]) -> Result<Option<Command>, AllocError>
    ensures { IfOk result (λ command. MatchOption command
        ((size : ℕ) → 1 ≤ size → size ≤ max_size → map string_bytes sizes.now ≡ decimal size ∷ [] → ⊥)
        (λ c. (size : ℕ) × (table : ExtensionTable) × (c ≡ Command.Generate size table) × (1 ≤ size)
        × (size ≤ max_size) × (map string_bytes sizes.now ≡ decimal size ∷ []) × IsStandard table)) }
{
    let [word] = sizes else {
        return Ok(None);
    };
    let Some(size) = size_of(word.as_str()) else {
        return Ok(None);
    };
    Ok(Some(Command::Generate(size, ExtensionTable::all_available(alloc)?)))
}
