//! Texts and numbers as JSON.
ghost use Rattle.std.specs.Prelude.{◌++◌, ◌+◌, codes, decimal, OnOk};
ghost use Rattle.std.specs.Str.{encode_utf8_all};
ghost use Rattle.json.specs.Print.{quoted};
ghost use Rattle.serde_json.specs.Written.{compact_text};
ghost use Rattle.schema_json_quotes.specs.Adds.{Adds};
ghost use Rattle.schema_report.specs.Json.{severity_value};
ghost use Rattle.schema_report_sarif.specs.Sarif.{message_value, said_value};

use cedar_data::{Severity, Text};
use itoa::Buffer;
use schema_json_quotes::pushing::push;
use schema_json_quotes::quotes::push_quoted;
use std::alloc::{AllocError, Global};

// Adds a number that people count from 1, in decimal digits.
pub(crate) fn push_from_one(out: &mut String, number: usize) -> Result<(), AllocError>
    ensures { OnOk result (Adds out.old out.new (decimal (number + 1))) }
{
    let mut buffer = Buffer::new();
    push(out, buffer.format(number as u128 + 1))
}

// Adds the text as a string.
pub(crate) fn push_text(out: &mut String, text: &Text) -> Result<(), AllocError>
    ensures { OnOk result (Adds out.old out.new (quoted (encode_utf8_all text.now))) }
{
    push_quoted(out, text.as_str())
}

// Adds the text as a message.
pub(crate) fn push_message(out: &mut String, text: &Text) -> Result<(), AllocError>
    ensures { OnOk result (Adds out.old out.new (compact_text (message_value text.now))) }
{
    push(out, "{\"text\":")?;
    push_text(out, text)?;
    push(out, "}")
}

// Adds the text as a message, and its advice in a line of its own.
pub(crate) fn push_said(
    alloc: Global,
    out: &mut String,
    message: &Text,
    help: &Option<Text>,
) -> Result<(), AllocError>
    ensures { OnOk result (Adds out.old out.new (compact_text (said_value message.now help.now))) }
{
    match help {
        Some(help) => push_advised(alloc, out, message, help),
        None => push_message(out, message),
    }
}

// Adds the text as a message with this advice.
fn push_advised(
    alloc: Global,
    out: &mut String,
    message: &Text,
    help: &Text,
) -> Result<(), AllocError>
    ensures { OnOk result
        (Adds out.old out.new (compact_text (message_value (message.now ++ (codes "\nhelp: " ++ help.now))))) }
{
    let mut said = Text::new(alloc);
    said.push_text(message)?;
    said.push_str("\nhelp: ")?;
    said.push_text(help)?;
    push_message(out, &said)
}

// Adds what the severity is called.
pub(crate) fn push_severity(out: &mut String, severity: Severity) -> Result<(), AllocError>
    ensures { OnOk result (Adds out.old out.new (compact_text (severity_value severity))) }
{
    match severity {
        Severity::Error => push(out, "\"error\""),
        Severity::Warning => push(out, "\"warning\""),
    }
}
