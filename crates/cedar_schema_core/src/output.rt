//! What a command writes of a text.
ghost use Rattle.std.specs.Prelude.{◌≡◌, ◌++◌, codes, decimal, length, IfOk, MatchResult};
ghost use Rattle.std.specs.Str.{encode_utf8_all};
ghost use Rattle.std.specs.Option.{option_map};
ghost use Rattle.cedar_schema_core.specs.Answers.{IsWrittenBy, IsRefusedBy};
ghost use Rattle.cedar_schema_core.specs.Commands.{own_text, IsSized};

use crate::command::Command;
use crate::json_texts::{JsonForm, recover_json, to_json_text};
use crate::recover::{Recovered, recover_schema};
use cedar_data::{Text, around};
use cedar_names::ExtensionTable;
use cedar_schema_core_faults::{RecoverError, number_text};
use schema_convert::SchemaWarning;
use schema_generate::generate_text;
use std::alloc::{AllocError, Global};

/// What a command writes, with the warnings of the text.
#[derive(Drop)]
pub(crate) struct Output {
    pub text: Text,
    pub warnings: Vec<SchemaWarning>,
}

// How many entity types and actions there are.
fn count_line(alloc: Global, entity_types: usize, actions: usize) -> Result<Text, AllocError>
    ensures { IfOk result (λ text. encode_utf8_all text
        ≡ decimal entity_types ++ (codes " entity types, " ++ (decimal actions ++ codes " actions\n"))) }
{
    let types = number_text(alloc, entity_types)?;
    let actions = number_text(alloc, actions)?;
    let counted = around(alloc, " entity types, ", &actions, " actions\n")?;
    let mut text = types;
    text.push_text(&counted)?;
    Ok(text)
}

// How long the text is, how much it holds, and how long the canonical text is.
fn made_line(alloc: Global, read: usize, recovered: &Recovered) -> Result<Text, AllocError>
    ensures { IfOk result (λ text. encode_utf8_all text ≡ decimal read ++ (codes " bytes in, "
        ++ (decimal recovered.now.entity_types ++ (codes " entity types, " ++ (decimal recovered.now.actions
        ++ (codes " actions, " ++ (decimal (length (encode_utf8_all recovered.now.text))
        ++ codes " bytes out\n"))))))) }
{
    let types = number_text(alloc, recovered.entity_types)?;
    let actions = number_text(alloc, recovered.actions)?;
    let written = number_text(alloc, recovered.text.as_str().len())?;
    let mut line = number_text(alloc, read)?;
    line.push_text(&around(alloc, " bytes in, ", &types, " entity types, ")?)?;
    line.push_text(&actions)?;
    line.push_text(&around(alloc, " actions, ", &written, " bytes out\n")?)?;
    Ok(line)
}

// The canonical text of the text's meaning.
#[tactic(auto, using(crate::proofs::Answered::text_written))]
fn recovery(alloc: Global, text: &str, table: &ExtensionTable) -> Result<Output, RecoverError>
    ensures { MatchResult result
        (λ o. IsWrittenBy (Command.Recover table.now) text.now (encode_utf8_all o.text) o.warnings.items)
        (IsRefusedBy (Command.Recover table.now) text.now) }
{
    let recovered = recover_schema(alloc, text, table)?;
    Ok(Output {
        text: recovered.text,
        warnings: recovered.warnings,
    })
}

// The counts of the text's meaning.
#[tactic(auto, using(crate::proofs::Answered::counts_written))]
fn counts(alloc: Global, text: &str, table: &ExtensionTable) -> Result<Output, RecoverError>
    ensures { MatchResult result
        (λ o. IsWrittenBy (Command.Check table.now) text.now (encode_utf8_all o.text) o.warnings.items)
        (IsRefusedBy (Command.Check table.now) text.now) }
{
    let recovered = recover_schema(alloc, text, table)?;
    match count_line(alloc, recovered.entity_types, recovered.actions) {
        Ok(line) => Ok(Output {
            text: line,
            warnings: recovered.warnings,
        }),
        Err(_) => Err(RecoverError::Memory),
    }
}

// The JSON of the text's fragment, and the end of the line.
#[tactic(auto, using(crate::proofs::Answered::json_written))]
fn json_line(alloc: Global, text: &str, table: &ExtensionTable) -> Result<Output, RecoverError>
    ensures { MatchResult result
        (λ o. IsWrittenBy (Command.ToJson table.now) text.now (encode_utf8_all o.text) o.warnings.items)
        (IsRefusedBy (Command.ToJson table.now) text.now) }
{
    let mut json = to_json_text(alloc, text, table)?;
    match json.push_str("\n") {
        Ok(()) => Ok(Output {
            text: json,
            warnings: Vec::new(alloc),
        }),
        Err(_) => Err(RecoverError::Memory),
    }
}

// The canonical text of the JSON text's meaning.
#[tactic(auto, using(crate::proofs::Answered::json_recovered))]
fn json_recovery(
    alloc: Global,
    text: &str,
    form: JsonForm,
    table: &ExtensionTable,
) -> Result<Output, RecoverError>
    ensures { MatchResult result
        (λ o. IsWrittenBy (Command.FromJson form table.now) text.now (encode_utf8_all o.text) o.warnings.items)
        (IsRefusedBy (Command.FromJson form table.now) text.now) }
{
    let recovered = recover_json(alloc, text, table, form)?;
    Ok(Output {
        text: recovered.text,
        warnings: recovered.warnings,
    })
}

// The counts of the text's meaning, and how long the text and its canonical text are.
#[tactic(auto, using(crate::proofs::Answered::made_written))]
fn made_counts(
    alloc: Global,
    text: &str,
    size: u32,
    table: &ExtensionTable,
) -> Result<Output, RecoverError>
    ensures { MatchResult result
        (λ o. IsWrittenBy (Command.Generate size table.now) text.now (encode_utf8_all o.text) o.warnings.items)
        (IsRefusedBy (Command.Generate size table.now) text.now) }
{
    let recovered = recover_schema(alloc, text, table)?;
    match made_line(alloc, text.len(), &recovered) {
        Ok(line) => Ok(Output {
            text: line,
            warnings: recovered.warnings,
        }),
        Err(_) => Err(RecoverError::Memory),
    }
}

/// What the command writes of the text, or why it writes nothing.
pub(crate) fn output_of(
    alloc: Global,
    command: &Command,
    text: &str,
) -> Result<Output, RecoverError>
    ensures { MatchResult result
        (λ o. IsWrittenBy command.now text.now (encode_utf8_all o.text) o.warnings.items)
        (IsRefusedBy command.now text.now) }
{
    match command {
        Command::Recover(table) => recovery(alloc, text, table),
        Command::Check(table) => counts(alloc, text, table),
        Command::ToJson(table) => json_line(alloc, text, table),
        Command::FromJson(form, table) => json_recovery(alloc, text, *form, table),
        Command::Generate(size, table) => made_counts(alloc, text, *size, table),
    }
}

/// The text that the command makes for itself, where it reads no input.
pub(crate) fn own_text_of(alloc: Global, command: &Command) -> Result<Option<Text>, AllocError>
    requires { IsSized command.now }
    ensures { IfOk result (λ own. option_map encode_utf8_all own ≡ own_text command.now) }
{
    match command {
        Command::Generate(size, _) => Ok(Some(generate_text(alloc, *size)?)),
        Command::Recover(_) | Command::Check(_) | Command::ToJson(_) | Command::FromJson(_, _) =>
            Ok(None),
    }
}
