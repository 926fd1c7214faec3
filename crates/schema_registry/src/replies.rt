//! The reply to each message of an input.
ghost use Rattle.std.specs.Prelude.{◌≡◌, ◌++◌, ℕ, List, codes, IfOk, OnOk, MatchOption};
ghost use Rattle.cedar_messages.specs.Messages.{AreMessages};
ghost use Rattle.cedar_names.specs.declared.extension_table.ExtensionTable.{ExtensionTable};
ghost use Rattle.schema_registry.specs.Replies.{AreAllReplies, entry_line};
ghost use Rattle.schema_registry.specs.Submissions.{IsNoted};

use crate::registry::Registry;
use crate::submit_error::SubmitError;
use cedar_data::{Text, around};
use cedar_messages::first_message;
use cedar_names::ExtensionTable;
use cedar_schema_core::canonical_texts_tell_meanings_apart;
use cedar_schema_core_faults::number_text;
use std::alloc::{AllocError, Global};

// Adds the line of an entry.
fn push_entry(alloc: Global, out: &mut Text, id: usize) -> Result<(), AllocError>
    ensures { OnOk result (out.new ≡ out.old ++ (entry_line id ++ codes "\n")) }
{
    let number = number_text(alloc, id)?;
    out.push_text(&around(alloc, "entry ", &number, "\n")?)
}

// Submits a message, and adds the line of the reply.
fn push_reply(
    alloc: Global,
    registry: &mut Registry,
    message: &[u8],
    out: &mut Text,
) -> Result<(), AllocError>
    ensures { OnOk result ((line : List ℕ) × IsNoted registry.old message.now registry.new line
        × (out.new ≡ out.old ++ (line ++ codes "\n"))) }
{
    let Ok(text) = str::from_utf8(message) else {
        return out.push_text(&cedar_data::message(alloc, "not text\n")?);
    };
    match registry.submit(text) {
        Ok(id) => push_entry(alloc, out, id),
        Err(SubmitError::Refused(error)) => {
            drop(error);
            out.push_text(&cedar_data::message(alloc, "refused\n")?)
        }
        Err(SubmitError::Memory) => Err(AllocError),
    }
}

/// A line for each message of the bytes, where they are whole messages. It errs when out of memory.
pub fn reply_all(
    alloc: Global,
    table: ExtensionTable,
    bytes: &[u8],
) -> Result<Option<Text>, AllocError>
    ensures { IfOk result (λ found. MatchOption found
        ((messages : List (List ℕ)) → AreMessages bytes.now messages → ⊥) (AreAllReplies table bytes.now)) }
{
    canonical_texts_tell_meanings_apart();
    let mut registry = Registry::new(alloc, table);
    let mut out = Text::new(alloc);
    let mut left = bytes;
    while !left.is_empty() {
        let Some((message, rest)) = first_message(left) else {
            return Ok(None);
        };
        push_reply(alloc, &mut registry, message, &mut out)?;
        left = rest;
    }
    Ok(Some(out))
}
