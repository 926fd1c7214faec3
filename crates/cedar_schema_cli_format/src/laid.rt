//! What becomes of a text laid out.
ghost use Rattle.std.specs.Prelude.{◌≡◌, ◌++◌, if◌then◌else◌, [], codes, map, OnOk};
ghost use Rattle.std.specs.Str.{bytes_eq, encode_utf8_all};
ghost use Rattle.schema_json_quotes.specs.Adds.{Adds};
ghost use Rattle.cedar_schema_cli_inputs.specs.Inputs.{is_standard};
ghost use Rattle.cedar_schema_cli_format.specs.Formatting.{replacement_of};
ghost use Rattle.cedar_schema_cli_format.specs.Plans.{laid, printed, counted, replaced, replacement};

use crate::changes::{Change, change_to};
use cedar_data::{Text, same_bytes};
use cedar_runs::Status;
use cedar_schema_cli_inputs::is_standard;
use cedar_schema_cli_words::Mode;
use schema_json_quotes::pushing::push;
use std::alloc::{AllocError, Global};

// Adds the name in a line of its own, where the text would change.
fn push_name(out: &mut String, name: &str, old: &str, new: &str) -> Result<(), AllocError>
    ensures { OnOk result (Adds out.old out.new
        (if bytes_eq old.now new.now then [] else name.now ++ codes "\n")) }
{
    if same_bytes(old, new) {
        return Ok(());
    }
    push(out, name)?;
    push(out, "\n")
}

// Adds the text laid out, where the name is that of the standard input.
fn push_standard(out: &mut String, name: &str, new: &str) -> Result<(), AllocError>
    ensures { OnOk result (Adds out.old out.new (if is_standard name.now then new.now else [])) }
{
    if is_standard(name) {
        return push(out, new);
    }
    Ok(())
}

/// Adds what goes to the output.
pub(crate) fn push_printed(
    out: &mut String,
    mode: Mode,
    name: &str,
    old: &str,
    new: &str,
) -> Result<(), AllocError>
    ensures { OnOk result (Adds out.old out.new (printed mode name.now (laid old.now new.now))) }
{
    match mode {
        Mode::Print => push(out, new),
        Mode::Name => push_name(out, name, old, new),
        Mode::Write => push_standard(out, name, new),
    }
}

/// The status that a text laid out gives.
pub(crate) fn counted(mode: Mode, old: &str, new: &str) -> Status
    ensures { result ≡ counted mode (laid old.now new.now) }
{
    match mode {
        Mode::Name => {
            if same_bytes(old, new) {
                return Status::Done;
            }
            Status::Refused
        }
        _ => Status::Done,
    }
}

// Adds the change of the file, where it has a path and its text changes.
fn push_if_changed(
    alloc: Global,
    changes: &mut Vec<Change>,
    name: &str,
    old: &str,
    new: Text,
) -> Result<(), AllocError>
    ensures { OnOk result (map replacement_of changes.new.items ≡ map replacement_of changes.old.items
        ++ replaced Mode.Write name.now (laid old.now (encode_utf8_all new))) }
{
    if is_standard(name) || same_bytes(old, new.as_str()) {
        return Ok(());
    }
    changes.push(change_to(alloc, name, new)?)?;
    Ok(())
}

/// Adds the change of the file, where files are replaced and this one changes.
pub(crate) fn push_change(
    alloc: Global,
    changes: &mut Vec<Change>,
    mode: Mode,
    name: &str,
    old: &str,
    new: Text,
) -> Result<(), AllocError>
    ensures { OnOk result (map replacement_of changes.new.items ≡ map replacement_of changes.old.items
        ++ replaced mode name.now (laid old.now (encode_utf8_all new))) }
{
    match mode {
        Mode::Write => push_if_changed(alloc, changes, name, old, new),
        _ => Ok(()),
    }
}
