//! The lines of a text.
ghost use Rattle.std.specs.Prelude.{◌≡◌, ◌+◌, ◌<◌, ◌≤◌, ◌↔◌, ℕ, length, slice_index, slice_range};
ghost use Rattle.std.specs.Prelude.{IfOk, IfSome, IsSome, Some, MatchOption};
ghost use Rattle.std.specs.List.{between, sum_by};
ghost use Rattle.std.specs.Str.{chars, IsCharBoundary};
ghost use Rattle.schema_report.specs.Marks.{AreMarks};
ghost use Rattle.schema_report.specs.Places.{unit_len, units_at, place_at, feeds};
ghost use Rattle.schema_report.specs.Lines.{AreLineStarts, IsLineEnd, IsLineFrom, IsColumnIn, IsColumnAt};
ghost use Rattle.schema_report.specs.Lines.{without_return, line_in, lent};

use crate::first_char::first_char;
use crate::marks::{Marks, last_up_to};
use crate::place::{Place, Units};
use std::alloc::{AllocError, Global};
use std::marker::Model;

/// A text and where each of its lines begins. Contracts see both.
#[derive(Drop)]
pub struct Lines<'a> {
    text: &'a str,
    starts: Vec<usize>,
    marks: Marks,
}

impl<'a> Model for Lines<'a> {
    ghost use Rattle.schema_report.specs.Lines.{TextLines, AreLineStarts};
    ghost use Rattle.schema_report.specs.Marks.{AreMarks};

    ghost Value = { TextLines };

    ghost view = { λ lines. record { text = lines.text.now; starts = lines.starts.items } };

    ghost invariant = { λ lines. AreLineStarts lines.text.now lines.starts.items
        × AreMarks lines.text.now lines.marks.bytes.items lines.marks.characters.items lines.marks.utf16.items };
}

impl<'a> Lines<'a> {
    /// The lines of the text, found in one pass. It errs when out of memory.
    pub fn of(alloc: Global, text: &'a str) -> Result<Lines<'a>, AllocError>
        ensures { IfOk result (λ lines. (lines.text ≡ text.now) × AreLineStarts text.now lines.starts) }
    {
        let starts = line_starts(alloc, text.as_bytes())?;
        let marks = Marks::of(alloc, text)?;
        Ok(Lines {
            text,
            starts,
            marks,
        })
    }

    /// The text.
    pub fn text(&self) -> &'a str
        ensures { result.now ≡ self.now.text }
    {
        self.text
    }

    /// How many lines there are: one more than line feeds.
    pub fn len(&self) -> usize
        ensures { result ≡ feeds self.now.text + 1 }
    {
        self.starts.len()
    }

    /// Where the byte stands in the text, and `None` exactly where it is past the end or inside a character. It finds
    /// the line by halving, and walks at most some 4,096 bytes twice, however long the line is.
    pub fn place_of(&self, byte: usize) -> Option<Place>
        ensures some { IsSome result ↔ IsCharBoundary self.now.text byte }
        ensures place { IfSome result (λ place. place ≡ place_at self.now.text byte) }
    {
        if !self.text.is_char_boundary(byte) {
            return None;
        }
        Some(place_from(&self.starts, &self.marks, self.text, byte))
    }

    /// The byte that stands at this line and column, and `None` exactly where none does: there is no such line, the
    /// column is past the end of the line, or it is inside a character of two units. The line feed itself stands at the
    /// column behind the line's last character.
    pub fn byte_of(&self, line: usize, column: usize, units: Units) -> Option<usize>
        ensures there { IfSome result (IsColumnAt self.now.text units line column) }
        ensures back { (byte : ℕ) → IsColumnAt self.now.text units line column byte → result ≡ Some byte }
    {
        byte_from(&self.starts, self.text, line, column, units)
    }

    /// What stands in the line, without its line feed and a carriage return before it, and `None` exactly where there
    /// is no such line.
    pub fn line_text(&self, line: usize) -> Option<&'a str>
        ensures { lent result ≡ line_in self.now line }
    {
        let (_start, bytes) = line_at(&self.starts, self.text, line)?;
        Some(without_return(bytes))
    }
}

// Where each line begins: at the first byte, and behind each line feed.
fn line_starts(alloc: Global, bytes: &[u8]) -> Result<Vec<usize>, AllocError>
    ensures { IfOk result (λ starts. AreLineStarts bytes.now starts.items) }
{
    let mut starts = Vec::new(alloc);
    starts.push(0)?;
    for (at, byte) in bytes.iter().enumerate() {
        if *byte == b'\n' {
            starts.push(at + 1)?;
        }
    }
    Ok(starts)
}

// Where a byte between two characters stands.
fn place_from(starts: &[usize], marks: &Marks, text: &str, byte: usize) -> Place
    requires lines { AreLineStarts text.now starts.now }
    requires marks { AreMarks text.now marks.now.bytes.items marks.now.characters.items marks.now.utf16.items }
    requires boundary { IsCharBoundary text.now byte }
    ensures { result ≡ place_at text.now byte }
{
    let line = last_up_to(starts, byte);
    let start = starts[line];
    Place {
        byte,
        line,
        column: units_between(marks, text, start, byte, Units::Characters),
        utf16: units_between(marks, text, start, byte, Units::Utf16),
    }
}

// How many units stand between two bytes.
fn units_between(marks: &Marks, text: &str, start: usize, end: usize, units: Units) -> usize
    requires marks { AreMarks text.now marks.now.bytes.items marks.now.characters.items marks.now.utf16.items }
    requires order { start ≤ end }
    requires start { IsCharBoundary text.now start }
    requires end { IsCharBoundary text.now end }
    ensures { result ≡ sum_by (unit_len units) (chars (between start end text.now)) }
{
    marks.units_before(text, end, units) - marks.units_before(text, start, units)
}

// The byte that stands at this line and column.
fn byte_from(
    starts: &[usize],
    text: &str,
    line: usize,
    column: usize,
    units: Units,
) -> Option<usize>
    requires { AreLineStarts text.now starts.now }
    ensures there { IfSome result (IsColumnAt text.now units line column) }
    ensures back { (byte : ℕ) → IsColumnAt text.now units line column byte → result ≡ Some byte }
{
    let (start, bytes) = line_at(starts, text, line)?;
    let at = byte_in(bytes, units, column)?;
    Some(start + at)
}

// The byte of a line that has so many units of it ahead.
fn byte_in(line: &str, units: Units, column: usize) -> Option<usize>
    ensures there { IfSome result (IsColumnIn line.now units column) }
    ensures back { (at : ℕ) → IsColumnIn line.now units column at → result ≡ Some at }
{
    let mut rest = line;
    let mut left = column;
    while left > 0 {
        let (c, after) = first_char(rest)?;
        let len = units.len_of(c);
        if len > left {
            return None;
        }
        left -= len;
        rest = after;
    }
    Some(line.len() - rest.len())
}

// Where the line begins, and its text without a line feed, and `None` exactly where there is no such line.
fn line_at<'a>(starts: &[usize], text: &'a str, line: usize) -> Option<(usize, &'a str)>
    requires { AreLineStarts text.now starts.now }
    ensures { MatchOption result (length starts.now ≤ line)
        (λ parts. (line < length starts.now) × (parts.0 ≡ slice_index starts.now line)
        × IsLineFrom text.now line parts.0 parts.1.now) }
{
    if line >= starts.len() {
        return None;
    }
    let start = starts[line];
    let end = line_end(starts, text, line);
    Some((start, &text[start..end]))
}

// The line without a carriage return at its end.
fn without_return(line: &str) -> &str
    ensures { result.now ≡ without_return line.now }
{
    let bytes = line.as_bytes();
    if bytes.is_empty() || bytes[bytes.len() - 1] != b'\r' {
        return line;
    }
    &line[..bytes.len() - 1]
}

// Where the line ends: before a line feed, or with the text.
fn line_end(starts: &[usize], text: &str, line: usize) -> usize
    requires lines { AreLineStarts text.now starts.now }
    requires within { line < length starts.now }
    ensures { IsLineEnd text.now line (slice_index starts.now line) result }
{
    if line + 1 < starts.len() {
        return starts[line + 1] - 1;
    }
    text.len()
}
