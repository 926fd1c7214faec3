//! What is shown of the source line of a place.
ghost use Rattle.std.specs.Prelude.{◌≡◌, ◌+◌, ◌-◌, decimal, drop, length, IfOk};
ghost use Rattle.std.specs.Str.{chars};
ghost use Rattle.schema_report.specs.Human.{skipped, window, ahead_text, mark_len, mark_text, columns_of, gutter_of};

use crate::escape::{Escape, push_escaped};
use crate::fronts::{front_chars, past_chars};
use crate::pushing::digits_len;
use crate::report::ReportPlace;
use cedar_data::Text;
use std::alloc::{AllocError, Global};
use unicode_width::UnicodeWidthStr;

// How many characters of a line are shown at most.
pub(crate) const SHOWN: usize = 300;

// How many characters are left out at the front of the line of a place.
pub(crate) fn skipped(place: &ReportPlace) -> usize
    ensures { result ≡ skipped place.now }
{
    place.start.column.saturating_sub(100)
}

// What is shown of the line of a place.
pub(crate) fn window<'a>(line: &'a str, place: &ReportPlace) -> &'a str
    ensures { chars result.now ≡ window (chars line.now) place.now }
{
    front_chars(past_chars(line, skipped(place)), SHOWN)
}

// What the line has behind the window.
pub(crate) fn behind<'a>(line: &'a str, place: &ReportPlace) -> &'a str
    ensures { chars result.now ≡ drop 300 (drop (skipped place.now) (chars line.now)) }
{
    past_chars(past_chars(line, skipped(place)), SHOWN)
}

// The part of it ahead of the place.
pub(crate) fn ahead<'a>(line: &'a str, place: &ReportPlace) -> &'a str
    ensures { chars result.now ≡ ahead_text (chars line.now) place.now }
{
    front_chars(window(line, place), place.start.column - skipped(place))
}

// The part of it at the place.
pub(crate) fn marked<'a>(line: &'a str, place: &ReportPlace) -> &'a str
    ensures { chars result.now ≡ mark_text (chars line.now) place.now }
{
    let rest = past_chars(window(line, place), place.start.column - skipped(place));
    front_chars(rest, mark_len(place))
}

// How many characters of its first line a place has at most.
fn mark_len(place: &ReportPlace) -> usize
    ensures { result ≡ mark_len place.now }
{
    if place.start.line == place.end.line {
        return place.end.column.saturating_sub(place.start.column);
    }
    SHOWN
}

// How many columns of a terminal a text takes.
pub(crate) fn columns_of(alloc: Global, text: &str) -> Result<usize, AllocError>
    ensures { IfOk result (λ columns. columns ≡ columns_of (chars text.now)) }
{
    let mut shown = Text::new(alloc);
    push_escaped(&mut shown, Escape::Screen, text)?;
    Ok(shown.as_str().width())
}

// The room ahead of the number of a line.
pub(crate) fn number_room(gutter: usize, line: usize) -> usize
    ensures { result ≡ gutter - length (decimal (line + 1)) }
{
    gutter.saturating_sub(digits_len(line))
}

// The columns that the numbers of the lines of places take.
pub(crate) fn gutter_of(places: &[ReportPlace]) -> usize
    ensures { result ≡ gutter_of places.now }
{
    let mut most = 0;
    for place in places {
        most = most.max(place.start.line);
    }
    digits_len(most)
}
