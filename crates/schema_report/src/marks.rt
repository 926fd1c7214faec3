//! How many characters stand before a byte, found without a walk along its whole line.
ghost use Rattle.std.specs.Prelude.{◌≡◌, ◌+◌, ◌<◌, ◌≤◌, ◌++◌, [], ◌∷◌, true, length, slice_index, take, IfOk, OnOk};
ghost use Rattle.std.specs.Char.{is_ascii};
ghost use Rattle.std.specs.List.{list_all, sum_by};
ghost use Rattle.std.specs.Str.{chars, IsCharBoundary};
ghost use Rattle.schema_report.specs.Marks.{AreMarks};
ghost use Rattle.schema_report.specs.Places.{unit_len};

use crate::first_char::first_char;
use crate::place::Units;
use std::alloc::{AllocError, Global};

// How far a mark is from the next, at least.
const STEP: usize = 4096;

// A byte about every 4,096, and how many characters and UTF-16 units stand before each.
#[derive(Drop)]
pub(crate) struct Marks {
    bytes: Vec<usize>,
    characters: Vec<usize>,
    utf16: Vec<usize>,
}

impl Marks {
    // The mark at the front of every text.
    fn first(alloc: Global) -> Result<Marks, AllocError>
        ensures { IfOk result (λ marks. (marks.bytes.items ≡ 0 ∷ []) × (marks.characters.items ≡ 0 ∷ [])
            × (marks.utf16.items ≡ 0 ∷ [])) }
    {
        let mut marks = Marks {
            bytes: Vec::new(alloc),
            characters: Vec::new(alloc),
            utf16: Vec::new(alloc),
        };
        marks.push(0, 0, 0)?;
        Ok(marks)
    }

    // Adds a mark.
    fn push(&mut self, byte: usize, characters: usize, utf16: usize) -> Result<(), AllocError>
        ensures { OnOk result ((self.new.bytes.items ≡ self.old.bytes.items ++ byte ∷ [])
            × (self.new.characters.items ≡ self.old.characters.items ++ characters ∷ [])
            × (self.new.utf16.items ≡ self.old.utf16.items ++ utf16 ∷ [])) }
    {
        self.bytes.push(byte)?;
        self.characters.push(characters)?;
        self.utf16.push(utf16)?;
        Ok(())
    }

    // The marks of the text. It errs when out of memory.
    pub(crate) fn of(alloc: Global, text: &str) -> Result<Marks, AllocError>
        ensures { IfOk result (λ marks. AreMarks text.now marks.bytes.items marks.characters.items marks.utf16.items) }
    {
        let mut marks = Marks::first(alloc)?;
        let mut byte = 0;
        let mut characters = 0;
        let mut utf16 = 0;
        while byte < text.len() {
            let next = boundary_from(text, byte);
            let part = &text[byte..next];
            characters += columns(part, Units::Characters);
            utf16 += columns(part, Units::Utf16);
            byte = next;
            marks.push(byte, characters, utf16)?;
        }
        Ok(marks)
    }

    // How many units stand before a mark.
    fn count(&self, text: &str, at: usize, units: Units) -> usize
        requires marks { AreMarks text.now self.now.bytes.items self.now.characters.items self.now.utf16.items }
        requires within { at < length self.now.bytes.items }
        ensures { result ≡ sum_by (unit_len units) (chars (take (slice_index self.now.bytes.items at) text.now)) }
    {
        match units {
            Units::Characters => self.characters[at],
            Units::Utf16 => self.utf16[at],
        }
    }

    // How many units stand before the byte.
    pub(crate) fn units_before(&self, text: &str, byte: usize, units: Units) -> usize
        requires marks { AreMarks text.now self.now.bytes.items self.now.characters.items self.now.utf16.items }
        requires boundary { IsCharBoundary text.now byte }
        ensures { result ≡ sum_by (unit_len units) (chars (take byte text.now)) }
    {
        let bytes = self.bytes.as_slice();
        let at = last_up_to(bytes, byte);
        let near = columns(&text[bytes[at]..byte], units);
        self.count(text, at, units) + near
    }
}

// The last of these at or before the byte.
pub(crate) fn last_up_to(rising: &[usize], byte: usize) -> usize
    requires some { 0 < length rising.now }
    requires first { slice_index rising.now 0 ≤ byte }
    ensures within { result < length rising.now }
    ensures before { slice_index rising.now result ≤ byte }
    ensures last { result + 1 < length rising.now → byte < slice_index rising.now (result + 1) }
{
    let mut low = 0;
    let mut high = rising.len();
    while high - low > 1 {
        let middle = low + (high - low) / 2;
        if rising[middle] <= byte {
            low = middle;
        } else {
            high = middle;
        }
    }
    low
}

// Where a character begins a step behind the byte, or the end of the text.
fn boundary_from(text: &str, byte: usize) -> usize
    requires { byte < length text.now }
    ensures behind { byte < result }
    ensures boundary { IsCharBoundary text.now result }
{
    if text.len() - byte <= STEP {
        return text.len();
    }
    let mut at = byte + STEP;
    while !text.is_char_boundary(at) {
        at += 1;
    }
    at
}

// Whether all bytes are ASCII.
fn are_ascii(bytes: &[u8]) -> bool
    ensures { result ≡ list_all is_ascii bytes.now }
{
    for byte in bytes {
        if !byte.is_ascii() {
            return false;
        }
    }
    true
}

// How many units the text takes.
pub(crate) fn columns(text: &str, units: Units) -> usize
    ensures { result ≡ sum_by (unit_len units) (chars text.now) }
{
    if are_ascii(text.as_bytes()) {
        return text.len();
    }
    counted(text, units)
}

// How many units the text takes, by a walk over its characters.
fn counted(text: &str, units: Units) -> usize
    ensures { result ≡ sum_by (unit_len units) (chars text.now) }
{
    let mut sum = 0;
    let mut rest = text;
    while let Some((c, after)) = first_char(rest) {
        sum += units.len_of(c);
        rest = after;
    }
    sum
}
