//! How deep the brackets of an input are nested.
ghost use Rattle.std.specs.Prelude.{◌≡◌, ◌↔◌, ◌&&◌, true};
ghost use Rattle.cedar_nesting.specs.Nesting.{past, past_bare, is_outside, opens, closes, IsTooDeep};

/// How many brackets an input may have open at one place, outside of strings and comments. Each call passes with so
/// many on a stack of 1 MiB.
pub const DEEPEST: usize = 256;

/// Where a byte of Cedar text or of JSON stands.
#[derive(Clone, Copy, PartialEq, Eq)]
pub enum Place {
    /// In no string and in no comment.
    Outside,
    /// The same, behind a `/`.
    BehindSlash,
    /// In a comment.
    InComment,
    /// In a string.
    InString,
    /// In a string, behind a `\`.
    BehindBackslash,
}

impl Place {
    // Where the next byte stands, behind this one.
    fn past(self, byte: u8) -> Place
        ensures { result ≡ past self byte }
    {
        match self {
            Place::Outside => behind_bare(byte, Place::BehindSlash),
            Place::BehindSlash => behind_bare(byte, Place::InComment),
            Place::InComment => {
                if byte == b'\n' || byte == b'\r' {
                    Place::Outside
                } else {
                    Place::InComment
                }
            }
            Place::InString => {
                if byte == b'"' {
                    Place::Outside
                } else if byte == b'\\' {
                    Place::BehindBackslash
                } else {
                    Place::InString
                }
            }
            Place::BehindBackslash => Place::InString,
        }
    }

    // Whether brackets count there.
    fn is_outside(self) -> bool
        ensures { result ≡ is_outside self }
    {
        match self {
            Place::Outside | Place::BehindSlash => true,
            _ => false,
        }
    }

    // Whether this byte opens a bracket that counts there.
    fn opens(self, byte: u8) -> bool
        ensures { result ≡ (is_outside self && opens byte) }
    {
        self.is_outside() && opens(byte)
    }

    // Whether this byte closes a bracket that counts there.
    fn closes(self, byte: u8) -> bool
        ensures { result ≡ (is_outside self && closes byte) }
    {
        self.is_outside() && closes(byte)
    }
}

// Where the next byte stands, behind one outside of strings and comments; `slashed` is the place behind a `/`.
fn behind_bare(byte: u8, slashed: Place) -> Place
    ensures { result ≡ past_bare slashed byte }
{
    if byte == b'"' {
        Place::InString
    } else if byte == b'/' {
        slashed
    } else {
        Place::Outside
    }
}

// Whether it is an opening bracket.
fn opens(byte: u8) -> bool
    ensures { result ≡ opens byte }
{
    byte == b'(' || byte == b'{' || byte == b'[' || byte == b'<'
}

// Whether it is a closing bracket.
fn closes(byte: u8) -> bool
    ensures { result ≡ closes byte }
{
    byte == b')' || byte == b'}' || byte == b']' || byte == b'>'
}

/// Whether more than `DEEPEST` brackets are open at some place of the bytes, outside of strings and comments.
pub fn is_too_deep(bytes: &[u8]) -> bool
    ensures { result ≡ true ↔ IsTooDeep bytes.now }
{
    let mut place = Place::Outside;
    let mut opened = 0usize;
    let mut closed = 0usize;
    for byte in bytes {
        if place.opens(*byte) {
            opened += 1;
        }
        if place.closes(*byte) {
            closed += 1;
        }
        if closed + DEEPEST < opened {
            return true;
        }
        place = place.past(*byte);
    }
    false
}
