ghost use Rattle.std.specs.Prelude.{◌≤◌, ◌<◌, ◌↔◌, IsTrue, take, drop, length, MatchOption, IfSome};
ghost use Rattle.std.specs.List.{All};
ghost use Rattle.schema_syntax_tokens.specs.Scans.{IsInLine, EndsLine, NoBlank, IsPastBlank, Skips};
ghost use Rattle.schema_syntax_tokens.specs.Steps.{StartsComment, IsPrinted};

/// How many bytes stand before the next LF or CR, or before the end.
pub fn line_len(rest: &[u8]) -> usize
    ensures in_range { result ≤ length rest.now }
    ensures line { All IsInLine (take result rest.now) }
    ensures stop { EndsLine (drop result rest.now) }
{
    for (at, byte) in rest.iter().enumerate() {
        if *byte == b'\n' {
            return at;
        }
        if *byte == b'\r' {
            return at;
        }
    }
    rest.len()
}

/// Whether the bytes begin with `//`.
pub fn starts_comment(rest: &[u8]) -> bool
    ensures { IsTrue result ↔ StartsComment rest.now }
{
    match rest {
        [b'/', b'/', ..] => true,
        _ => false,
    }
}

/// What follows the blank that the text begins with, and `None` where it begins with none.
pub fn past_blank(rest: &str) -> Option<&str>
    ensures cases { MatchOption result (NoBlank rest.now) (λ after. IsPastBlank rest.now after.now) }
    ensures shorter { IfSome result (λ after. length after.now < length rest.now) }
{
    if let [first, ..] = rest.as_bytes() {
        if *first == b' ' {
            let (_, after) = rest.split_at(1);
            return Some(after);
        }
        if starts_no_blank(*first) {
            return None;
        }
    }
    past_any_blank(rest)
}

// Whether no blank begins with the byte: it is printed, and no slash.
fn starts_no_blank(byte: u8) -> bool
    ensures { IsTrue result ↔ IsPrinted byte }
{
    byte > b' ' && byte < 127 && byte != b'/'
}

// What follows the first blank of the text, whatever byte that begins with.
fn past_any_blank(rest: &str) -> Option<&str>
    ensures cases { MatchOption result (NoBlank rest.now) (λ after. IsPastBlank rest.now after.now) }
    ensures shorter { IfSome result (λ after. length after.now < length rest.now) }
{
    let mut chars = rest.chars();
    let first = chars.next()?;
    if first.is_whitespace() {
        return Some(chars.as_str());
    }
    let bytes = rest.as_bytes();
    if !starts_comment(bytes) {
        return None;
    }
    let (_, after) = rest.split_at(line_len(bytes));
    Some(after)
}

/// The text without the blanks that it begins with.
pub(crate) fn past_blanks(text: &str) -> &str
    ensures skips { Skips text.now result.now }
    ensures stop { NoBlank result.now }
    ensures shorter { length result.now ≤ length text.now }
{
    let mut rest = text;
    while let Some(after) = past_blank(rest) {
        rest = after;
    }
    rest
}
