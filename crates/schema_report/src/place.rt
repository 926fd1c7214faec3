//! Where a byte of a text stands, by lines and columns.
ghost use Rattle.std.specs.Prelude.{◌≡◌};
ghost use Rattle.schema_report.specs.Places.{unit_len, units_at};

/// Where a byte of a text stands. A line feed alone ends a line. All counts are from 0: people are told lines and
/// columns from 1.
#[derive(Clone, Copy, PartialEq, Eq)]
pub struct Place {
    /// The bytes before it.
    pub byte: usize,
    /// The line feeds before it.
    pub line: usize,
    /// The characters between the last line feed and it.
    pub column: usize,
    /// The UTF-16 units between the last line feed and it.
    pub utf16: usize,
}

/// What columns count.
#[derive(Clone, Copy, PartialEq, Eq)]
pub enum Units {
    /// Characters, as editors show them.
    Characters,
    /// UTF-16 units, as language servers count.
    Utf16,
}

impl Units {
    /// How many units the character takes.
    pub fn len_of(self, c: char) -> usize
        ensures { result ≡ unit_len self c }
    {
        match self {
            Units::Characters => 1,
            Units::Utf16 => c.len_utf16(),
        }
    }
}

impl Place {
    /// The column, in these units.
    pub fn column_in(&self, units: Units) -> usize
        ensures { result ≡ units_at units self.now }
    {
        match units {
            Units::Characters => self.column,
            Units::Utf16 => self.utf16,
        }
    }
}
