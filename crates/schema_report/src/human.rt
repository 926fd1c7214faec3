//! Reports as people read them in a terminal.
ghost use Rattle.std.specs.Prelude.{◌≡◌, ◌++◌, true, codes, OnOk, IfOk};
ghost use Rattle.std.specs.Char.{is_ascii};
ghost use Rattle.std.specs.List.{flat_map, list_all};
ghost use Rattle.std.specs.Str.{chars};
ghost use Rattle.schema_report.specs.Lines.{lent};
ghost use Rattle.schema_report.specs.Human.{coloured, severity_code, framed, dots, dots_for, room_for, head_line};
ghost use Rattle.schema_report.specs.Human.{path_line, where_line, gutter_line, line_number, line_shown, code_line};
ghost use Rattle.schema_report.specs.Human.{said_at, up_to, last_line, mark_indent, carets, mark_line, advice};
ghost use Rattle.schema_report.specs.Human.{snippet, place_block, place_blocks, help_lines, gutter_of, human_text};

use crate::escape::{Escape, push_escaped, push_text};
use crate::excerpt::{ahead, behind, columns_of, gutter_of, marked, number_room, skipped, window};
use crate::first_char::first_char;
use crate::lines::Lines;
use crate::place::Place;
use crate::pushing::{push, push_from_one, push_repeated};
use crate::report::{Report, ReportPlace};
use crate::short::{push_line_and_column, push_rule, push_severity};
use cedar_data::{Severity, Text};
use std::alloc::{AllocError, Global};

/// Whether a report has colours.
#[derive(Clone, Copy)]
pub enum Colour {
    /// None.
    Plain,
    /// The codes of ANSI terminals.
    Ansi,
}

// How source lines are framed: the colours, the columns for line numbers, and the colour of what is marked.
#[derive(Clone, Copy)]
struct Frame {
    colour: Colour,
    gutter: usize,
    severity: Severity,
}

/// Adds the report: `error: message`, each place with its line underlined, and the advice. Of a long line it shows the
/// 300 characters around the place. It errs when out of memory.
pub fn push_human(
    alloc: Global,
    out: &mut Text,
    colour: Colour,
    path: &str,
    report: &Report,
    lines: &Lines<'_>,
) -> Result<(), AllocError>
    ensures { OnOk result
        (out.new ≡ out.old ++ human_text colour (chars path.now) lines.now report.now) }
{
    let places = report.places.as_slice();
    let frame = Frame {
        colour,
        gutter: gutter_of(places),
        severity: report.severity,
    };
    push_head(out, colour, report)?;
    push_blocks(alloc, out, frame, path, places, lines)?;
    push_help(out, frame, &report.help)
}

// Adds `error[rule]: message`.
fn push_head(out: &mut Text, colour: Colour, report: &Report) -> Result<(), AllocError>
    ensures { OnOk result (out.new ≡ out.old ++ head_line colour report.now) }
{
    push_severity_code(out, colour, report.severity)?;
    push_severity(out, report.severity)?;
    push_rule(out, &report.rule)?;
    push_code(out, colour, "[0m")?;
    push_code(out, colour, "[1m")?;
    push(out, ": ")?;
    push_text(out, Escape::Screen, &report.message)?;
    push_code(out, colour, "[0m")?;
    push(out, "\n")
}

// Adds the places, one after another, or the path alone.
fn push_blocks(
    alloc: Global,
    out: &mut Text,
    frame: Frame,
    path: &str,
    places: &[ReportPlace],
    lines: &Lines<'_>,
) -> Result<(), AllocError>
    ensures { OnOk result (out.new ≡ out.old ++ place_blocks frame.colour frame.gutter frame.severity (chars path.now)
        lines.now places.now) }
{
    match places {
        [] => push_path(out, frame, path),
        [first, others @ ..] => {
            push_block(alloc, out, frame, path, "--> ", first, lines)?;
            push_others(alloc, out, frame, path, others, lines)
        }
    }
}

// Adds the path alone.
fn push_path(out: &mut Text, frame: Frame, path: &str) -> Result<(), AllocError>
    ensures { OnOk result (out.new ≡ out.old ++ path_line frame.colour frame.gutter (chars path.now)) }
{
    push_repeated(out, ' ', frame.gutter)?;
    push_framed(out, frame.colour, "--> ")?;
    push_escaped(out, Escape::Screen, path)?;
    push(out, "\n")
}

// Adds the places behind the first.
fn push_others(
    alloc: Global,
    out: &mut Text,
    frame: Frame,
    path: &str,
    places: &[ReportPlace],
    lines: &Lines<'_>,
) -> Result<(), AllocError>
    ensures { OnOk result (out.new ≡ out.old ++ flat_map (place_block frame.colour frame.gutter frame.severity
        (chars path.now) lines.now (codes "::: ")) places.now) }
{
    for place in places {
        push_block(alloc, out, frame, path, "::: ", place, lines)?;
    }
    Ok(())
}

// Adds a place with its source line.
fn push_block(
    alloc: Global,
    out: &mut Text,
    frame: Frame,
    path: &str,
    arrow: &str,
    place: &ReportPlace,
    lines: &Lines<'_>,
) -> Result<(), AllocError>
    requires { list_all is_ascii arrow.now ≡ true }
    ensures { OnOk result (out.new ≡ out.old ++ place_block frame.colour frame.gutter frame.severity (chars path.now)
        lines.now arrow.now place.now) }
{
    push_where(out, frame, arrow, path, &place.start)?;
    let line = lines.line_text(place.start.line);
    push_snippet(alloc, out, frame, place, line)
}

// Adds where a place begins.
fn push_where(
    out: &mut Text,
    frame: Frame,
    arrow: &str,
    path: &str,
    place: &Place,
) -> Result<(), AllocError>
    requires { list_all is_ascii arrow.now ≡ true }
    ensures { OnOk result
        (out.new ≡ out.old ++ where_line frame.colour frame.gutter arrow.now (chars path.now) place.now) }
{
    push_repeated(out, ' ', frame.gutter)?;
    push_framed(out, frame.colour, arrow)?;
    push_escaped(out, Escape::Screen, path)?;
    push_line_and_column(out, place)?;
    push(out, "\n")
}

// Adds the source line of a place, where the text has it.
fn push_snippet(
    alloc: Global,
    out: &mut Text,
    frame: Frame,
    place: &ReportPlace,
    line: Option<&str>,
) -> Result<(), AllocError>
    ensures { OnOk result (out.new ≡ out.old ++ snippet frame.colour frame.gutter frame.severity place.now
        (lent line.entry)) }
{
    match line {
        Some(line) => {
            push_gutter(out, frame)?;
            push_line(out, frame, line, place)?;
            push_mark(alloc, out, frame, line, place)
        }
        None => Ok(()),
    }
}

// Adds the frame of an empty line.
fn push_gutter(out: &mut Text, frame: Frame) -> Result<(), AllocError>
    ensures { OnOk result (out.new ≡ out.old ++ gutter_line frame.colour frame.gutter) }
{
    push_repeated(out, ' ', frame.gutter)?;
    push_framed(out, frame.colour, " |")?;
    push(out, "\n")
}

// Adds the source line around a place, behind its number.
fn push_line(
    out: &mut Text,
    frame: Frame,
    line: &str,
    place: &ReportPlace,
) -> Result<(), AllocError>
    ensures { OnOk result (out.new ≡ out.old ++ code_line frame.colour frame.gutter (chars line.now) place.now) }
{
    push_line_number(out, frame, place.start.line)?;
    push_line_shown(out, line, place)
}

// Adds the number of a line.
fn push_line_number(out: &mut Text, frame: Frame, line: usize) -> Result<(), AllocError>
    ensures { OnOk result (out.new ≡ out.old ++ line_number frame.colour frame.gutter line) }
{
    let room = number_room(frame.gutter, line);
    push_repeated(out, ' ', room)?;
    push_code(out, frame.colour, "[1;34m")?;
    push_from_one(out, line)?;
    push(out, " | ")?;
    push_code(out, frame.colour, "[0m")
}

// Adds the source line around a place.
fn push_line_shown(out: &mut Text, line: &str, place: &ReportPlace) -> Result<(), AllocError>
    ensures { OnOk result (out.new ≡ out.old ++ line_shown (chars line.now) place.now) }
{
    push_dots_for(out, skipped(place))?;
    push_escaped(out, Escape::Screen, window(line, place))?;
    push_dots(out, behind(line, place))?;
    push(out, "\n")
}

// Adds dots where something is left.
fn push_dots(out: &mut Text, rest: &str) -> Result<(), AllocError>
    ensures { OnOk result (out.new ≡ out.old ++ dots (chars rest.now)) }
{
    match first_char(rest) {
        Some(_) => push(out, "..."),
        None => Ok(()),
    }
}

// Adds dots for characters that are left out.
fn push_dots_for(out: &mut Text, count: usize) -> Result<(), AllocError>
    ensures { OnOk result (out.new ≡ out.old ++ dots_for count) }
{
    if count > 0 {
        return push(out, "...");
    }
    Ok(())
}

// Adds the room that those dots take.
fn push_room_for(out: &mut Text, count: usize) -> Result<(), AllocError>
    ensures { OnOk result (out.new ≡ out.old ++ room_for count) }
{
    if count > 0 {
        return push(out, "   ");
    }
    Ok(())
}

// Adds the line below the source line, with carets at the place.
fn push_mark(
    alloc: Global,
    out: &mut Text,
    frame: Frame,
    line: &str,
    place: &ReportPlace,
) -> Result<(), AllocError>
    ensures { OnOk result
        (out.new ≡ out.old ++ mark_line frame.colour frame.gutter frame.severity (chars line.now) place.now) }
{
    let room = columns_of(alloc, ahead(line, place))?;
    let width = columns_of(alloc, marked(line, place))?;
    push_indent(out, frame, place, room)?;
    push_carets(out, frame, place, width.max(1))
}

// Adds the room ahead of the place.
fn push_indent(
    out: &mut Text,
    frame: Frame,
    place: &ReportPlace,
    room: usize,
) -> Result<(), AllocError>
    ensures { OnOk result (out.new ≡ out.old ++ mark_indent frame.colour frame.gutter place.now room) }
{
    push_repeated(out, ' ', frame.gutter)?;
    push_framed(out, frame.colour, " | ")?;
    push_room_for(out, skipped(place))?;
    push_repeated(out, ' ', room)
}

// Adds the carets, and what is said there.
fn push_carets(
    out: &mut Text,
    frame: Frame,
    place: &ReportPlace,
    count: usize,
) -> Result<(), AllocError>
    ensures { OnOk result (out.new ≡ out.old ++ carets frame.colour frame.severity place.now count) }
{
    push_severity_code(out, frame.colour, frame.severity)?;
    push_repeated(out, '^', count)?;
    push_said(out, &place.text)?;
    push_last_line(out, place)?;
    push_code(out, frame.colour, "[0m")?;
    push(out, "\n")
}

// Adds what is said at a place.
fn push_said(out: &mut Text, said: &Option<Text>) -> Result<(), AllocError>
    ensures { OnOk result (out.new ≡ out.old ++ said_at said.now) }
{
    match said {
        Some(text) => {
            push(out, " ")?;
            push_text(out, Escape::Screen, text)
        }
        None => Ok(()),
    }
}

// Adds where a place ends that has several lines.
fn push_last_line(out: &mut Text, place: &ReportPlace) -> Result<(), AllocError>
    ensures { OnOk result (out.new ≡ out.old ++ last_line place.now) }
{
    if place.start.line < place.end.line {
        return push_up_to(out, place.end.line);
    }
    Ok(())
}

fn push_up_to(out: &mut Text, line: usize) -> Result<(), AllocError>
    ensures { OnOk result (out.new ≡ out.old ++ up_to line) }
{
    push(out, " (up to line ")?;
    push_from_one(out, line)?;
    push(out, ")")
}

// Adds the advice, where there is any.
fn push_help(out: &mut Text, frame: Frame, help: &Option<Text>) -> Result<(), AllocError>
    ensures { OnOk result (out.new ≡ out.old ++ help_lines frame.colour frame.gutter help.now) }
{
    match help {
        Some(help) => push_advice(out, frame, help),
        None => Ok(()),
    }
}

fn push_advice(out: &mut Text, frame: Frame, help: &Text) -> Result<(), AllocError>
    ensures { OnOk result (out.new ≡ out.old ++ advice frame.colour frame.gutter help.now) }
{
    push_repeated(out, ' ', frame.gutter)?;
    push_framed(out, frame.colour, " = ")?;
    push(out, "help: ")?;
    push_text(out, Escape::Screen, help)?;
    push(out, "\n")
}

// Adds words in the colour of the frame.
fn push_framed(out: &mut Text, colour: Colour, words: &str) -> Result<(), AllocError>
    requires { list_all is_ascii words.now ≡ true }
    ensures { OnOk result (out.new ≡ out.old ++ framed colour words.now) }
{
    push_code(out, colour, "[1;34m")?;
    push(out, words)?;
    push_code(out, colour, "[0m")
}

// Adds the code for a colour, where colours are wanted.
fn push_code(out: &mut Text, colour: Colour, code: &str) -> Result<(), AllocError>
    requires { list_all is_ascii code.now ≡ true }
    ensures { OnOk result (out.new ≡ out.old ++ coloured colour code.now) }
{
    match colour {
        Colour::Plain => Ok(()),
        Colour::Ansi => {
            push(out, "\x1b")?;
            push(out, code)
        }
    }
}

// Adds the code for the colour of a severity.
fn push_severity_code(out: &mut Text, colour: Colour, severity: Severity) -> Result<(), AllocError>
    ensures { OnOk result (out.new ≡ out.old ++ coloured colour (severity_code severity)) }
{
    match severity {
        Severity::Error => push_code(out, colour, "[1;31m"),
        Severity::Warning => push_code(out, colour, "[1;33m"),
    }
}
