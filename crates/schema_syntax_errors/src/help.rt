ghost use Rattle.std.specs.List.{list_all};
ghost use Rattle.std.specs.Char.{is_ascii};
ghost use Rattle.std.specs.Prelude.{◌≡◌, true};
ghost use Rattle.std.specs.Option.{option_copied};
ghost use Rattle.std.specs.Str.{bytes_eq};
ghost use Rattle.schema_syntax_errors.specs.FaultHelps.{misses_applies_to, ends_namespace, token_help, follows_brace};
ghost use Rattle.schema_syntax_errors.specs.FaultHelps.{ends_in_brace};

use crate::expected::expects;
use cedar_data::Text;
use schema_syntax_grammar::TokenKind;

const MISSING_APPLIES_TO: &str =
    "action declarations require `appliesTo` before the `{ ... }` block";

const TRAILING_NAMESPACE_SEMICOLON: &str =
    "namespace declarations are not followed by `;`; try removing this semicolon";

/// Advice on a token that stands, from the byte `start` of the source on, where the kinds in the list were expected.
pub fn help_on_token(
    start: usize,
    token: &Text,
    expected: &[TokenKind],
    source: &str,
) -> Option<&'static str>
    ensures { option_copied result ≡ token_help start token.now expected.now source.now }
{
    if misses_applies_to(token, expected) {
        return Some(MISSING_APPLIES_TO);
    }
    if ends_namespace(start, token, expected, source) {
        return Some(TRAILING_NAMESPACE_SEMICOLON);
    }
    None
}

// Whether a block is opened where `appliesTo` may stand.
fn misses_applies_to(token: &Text, expected: &[TokenKind]) -> bool
    ensures { result ≡ misses_applies_to token.now expected.now }
{
    is_text(token, "{") && expects(expected, TokenKind::KwAppliesTo)
}

// Whether a `;` stands behind a `}` where a namespace may.
fn ends_namespace(start: usize, token: &Text, expected: &[TokenKind], source: &str) -> bool
    ensures { result ≡ ends_namespace start token.now expected.now source.now }
{
    is_text(token, ";") && expects(expected, TokenKind::KwNamespace) && follows_brace(source, start)
}

// Whether the text is this ASCII one.
fn is_text(text: &Text, ascii: &str) -> bool
    requires { list_all is_ascii ascii.now ≡ true }
    ensures { result ≡ bytes_eq text.now ascii.now }
{
    text.as_str() == ascii
}

// Whether the place is a boundary of the source, and what stands before it ends in `}` but for white space.
fn follows_brace(source: &str, place: usize) -> bool
    ensures { result ≡ follows_brace source.now place }
{
    source.is_char_boundary(place) && ends_in_brace(&source[..place])
}

// Whether the last character of the text that is no white space is `}`.
fn ends_in_brace(text: &str) -> bool
    ensures { result ≡ ends_in_brace text.now }
{
    text.trim_end().ends_with('}')
}
