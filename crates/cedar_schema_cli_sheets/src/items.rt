//! One report in a form.
ghost use Rattle.std.specs.Prelude.{◌≡◌, ◌++◌, decimal, IfOk, OnOk};
ghost use Rattle.schema_json_quotes.specs.Adds.{Adds};
ghost use Rattle.std.specs.Str.{chars};
ghost use Rattle.schema_report.specs.GitHub.{github_line};
ghost use Rattle.schema_report.specs.Human.{human_text};
ghost use Rattle.schema_report.specs.Short.{short_line};
ghost use Rattle.schema_report.specs.declared.human.Colour.TheVariants.{Plain};
ghost use Rattle.cedar_schema_cli_sheets.specs.Sheets.{item_text, count_text, hidden_text};

use cedar_data::Text;
use cedar_schema_cli_words::Form;
use itoa::Buffer;
use schema_json_quotes::pushing::push;
use schema_report::{Colour, Lines, Report, push_github, push_human, push_json, push_short};
use std::alloc::{AllocError, Global};

// The report for people.
fn human(alloc: Global, path: &str, lines: &Lines<'_>, report: &Report) -> Result<Text, AllocError>
    ensures { IfOk result (λ text. text ≡ human_text Plain (chars path.now) lines.now report.now) }
{
    let mut text = Text::new(alloc);
    push_human(alloc, &mut text, Colour::Plain, path, report, lines)?;
    Ok(text)
}

// The report in one line.
fn short(alloc: Global, path: &str, report: &Report) -> Result<Text, AllocError>
    ensures { IfOk result (λ text. text ≡ short_line (chars path.now) report.now) }
{
    let mut text = Text::new(alloc);
    push_short(&mut text, path, report)?;
    Ok(text)
}

// The report as a workflow command of GitHub.
fn github(alloc: Global, path: &str, report: &Report) -> Result<Text, AllocError>
    ensures { IfOk result (λ text. text ≡ github_line (chars path.now) report.now) }
{
    let mut text = Text::new(alloc);
    push_github(&mut text, path, report)?;
    Ok(text)
}

/// Adds the report in this form. When out of memory, a front of it may have been added.
pub(crate) fn push_item(
    alloc: Global,
    out: &mut String,
    form: Form,
    path: &str,
    lines: &Lines<'_>,
    report: &Report,
) -> Result<(), AllocError>
    ensures { OnOk result (Adds out.old out.new
        (item_text form (record { path = path.now; lines = lines.now; report = report.now }))) }
{
    match form {
        Form::Human => push(out, human(alloc, path, lines, report)?.as_str()),
        Form::Short => push(out, short(alloc, path, report)?.as_str()),
        Form::Json => push_json(out, path, report),
        Form::GitHub => push(out, github(alloc, path, report)?.as_str()),
    }
}

// Adds a number between two wordings.
fn push_around(out: &mut String, before: &str, number: usize, after: &str) -> Result<(), AllocError>
    ensures { OnOk result (Adds out.old out.new (before.now ++ (decimal number ++ after.now))) }
{
    let mut buffer = Buffer::new();
    push(out, before)?;
    push(out, buffer.format(number as u128))?;
    push(out, after)
}

// Adds how many reports are not written.
fn push_count(out: &mut String, form: Form, count: usize) -> Result<(), AllocError>
    ensures { OnOk result (Adds out.old out.new (count_text form count)) }
{
    match form {
        Form::Human => push_around(out, "and ", count, " more\n"),
        Form::Short => push_around(out, "and ", count, " more\n"),
        Form::Json => push_around(out, "{\"more\":", count, "}\n"),
        Form::GitHub => push_around(out, "::notice::and ", count, " more\n"),
    }
}

/// Adds how many reports are not written, where there are such.
pub(crate) fn push_hidden(out: &mut String, form: Form, count: usize) -> Result<(), AllocError>
    ensures { OnOk result (Adds out.old out.new (hidden_text form count)) }
{
    if count > 0 {
        return push_count(out, form, count);
    }
    Ok(())
}
