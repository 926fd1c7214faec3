ghost use Rattle.std.specs.Prelude.{◌≡◌, ◌++◌, map, codes, IfOk, OnOk};
ghost use Rattle.schema_syntax_errors.specs.ExpectedText.{kind_name, is_name_keyword, printed, expected_text_of};
ghost use Rattle.schema_syntax_errors.specs.ExpectedText.{expects};
ghost use Rattle.cedar_data.specs.Rows.{listed};

use cedar_data::{Text, message, separator};
use schema_syntax_grammar::TokenKind;
use std::alloc::{AllocError, Global};

/// What was expected: `expected` and the names of the kinds, with `, ` between two and ` or ` before the last. Where
/// any identifier may stand, the keywords that may stand as one are not named.
pub fn expected_text(alloc: Global, expected: &[TokenKind]) -> Result<Text, AllocError>
    ensures text { IfOk result (λ text. text ≡ expected_text_of expected.now) }
{
    let kinds = printed_kinds(alloc, expected)?;
    let mut text = message(alloc, "expected ")?;
    push_names(&mut text, &kinds)?;
    Ok(text)
}

/// Whether the kind is among those expected.
pub(crate) fn expects(expected: &[TokenKind], kind: TokenKind) -> bool
    ensures { result ≡ expects expected.now kind }
{
    expected.contains(&kind)
}

// The kinds that are named.
fn printed_kinds(alloc: Global, expected: &[TokenKind]) -> Result<Vec<TokenKind>, AllocError>
    ensures { IfOk result (λ kinds. kinds.items ≡ printed expected.now) }
{
    if expects(expected, TokenKind::Identifier) {
        expected
            .iter()
            .copied()
            .filter(|kind| !is_name_keyword(*kind))
            .collect(alloc)
    } else {
        Vec::from_slice(alloc, expected)
    }
}

// Whether the kind goes without a name where an identifier may stand: a keyword that may be a name.
fn is_name_keyword(kind: TokenKind) -> bool
    ensures { result ≡ is_name_keyword kind }
{
    kind.is_ident() && kind != TokenKind::Identifier
}

// Adds the names of the kinds, with what stands between them.
fn push_names(text: &mut Text, kinds: &[TokenKind]) -> Result<(), AllocError>
    ensures { OnOk result (text.new ≡ text.old ++ listed (codes ", ") (codes " or ") (map kind_name kinds.now)) }
{
    let mut left = kinds;
    while let Some((kind, rest)) = left.split_first() {
        text.push_str(name_of(*kind))?;
        text.push_str(separator(rest, ", ", " or "))?;
        left = rest;
    }
    Ok(())
}

// How the kind is named: a keyword or a mark stands in backquotes.
fn name_of(kind: TokenKind) -> &'static str
    ensures { result.now ≡ kind_name kind }
{
    match kind {
        TokenKind::KwNamespace => "`namespace`",
        TokenKind::KwEntity => "`entity`",
        TokenKind::KwExternal => "`external`",
        TokenKind::KwIn => "`in`",
        TokenKind::KwType => "`type`",
        TokenKind::KwSet => "`Set`",
        TokenKind::KwAppliesTo => "`appliesTo`",
        TokenKind::KwPrincipal => "`principal`",
        TokenKind::KwAction => "`action`",
        TokenKind::KwResource => "`resource`",
        TokenKind::KwContext => "`context`",
        TokenKind::KwTags => "`tags`",
        TokenKind::KwEnum => "`enum`",
        TokenKind::Identifier => "identifier",
        TokenKind::StringLit => "string literal",
        TokenKind::At => "`@`",
        TokenKind::Comma => "`,`",
        TokenKind::Semi => "`;`",
        TokenKind::Colon => "`:`",
        TokenKind::PathSep => "`::`",
        TokenKind::LParen => "`(`",
        TokenKind::RParen => "`)`",
        TokenKind::LBrace => "`{`",
        TokenKind::RBrace => "`}`",
        TokenKind::LBracket => "`[`",
        TokenKind::RBracket => "`]`",
        TokenKind::Less => "`<`",
        TokenKind::Greater => "`>`",
        TokenKind::Question => "`?`",
        TokenKind::Equals => "`=`",
        TokenKind::End => "end of input",
    }
}
