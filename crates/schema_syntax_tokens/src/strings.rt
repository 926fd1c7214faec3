ghost use Rattle.std.specs.Prelude.{MatchOption};
ghost use Rattle.schema_syntax_tokens.specs.Forms.{NoBody, IsBodyEnd};

/// How long the body is that these bytes begin with and a quote ends, and `None` where there is no such body.
pub(crate) fn body_len(rest: &[u8]) -> Option<usize>
    ensures { MatchOption result (NoBody rest.now) (IsBodyEnd rest.now) }
{
    let mut at: usize = 0;
    while at < rest.len() {
        let byte = rest[at];
        if byte == b'"' {
            return Some(at);
        }
        if byte != b'\\' {
            at += 1;
        } else if rest.len() - at < 2 {
            return None;
        } else if rest[at + 1] == b'\n' {
            return None;
        } else {
            at += 2;
        }
    }
    None
}
