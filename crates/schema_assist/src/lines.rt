// The lines of what may stand at a place.

ghost use Rattle.std.specs.Prelude.{◌≡◌, ◌++◌, true, IfOk, OnOk};
ghost use Rattle.std.specs.Char.{is_ascii};
ghost use Rattle.std.specs.List.{flat_map, list_all};
ghost use Rattle.schema_syntax_errors.specs.ExpectedText.{kind_name};
ghost use Rattle.schema_assist.specs.Lines.{kind_line, name_line, assistance_lines};

use crate::assistance::Assistance;
use cedar_data::{Text, around, message};
use schema_syntax_grammar::TokenKind;
use std::alloc::{AllocError, Global};

// How the kind is named: a keyword or a mark stands in backquotes.
fn name_of(kind: TokenKind) -> &'static str
    ensures name { result.now ≡ kind_name kind }
    ensures ascii { list_all is_ascii result.now ≡ true }
{
    match kind {
        TokenKind::KwNamespace => "`namespace`",
        TokenKind::KwEntity => "`entity`",
        TokenKind::KwExternal => "`external`",
        TokenKind::KwIn => "`in`",
        TokenKind::KwType => "`type`",
        TokenKind::KwSet => "`Set`",
        TokenKind::KwAppliesTo => "`appliesTo`",
        TokenKind::KwPrincipal => "`principal`",
        TokenKind::KwAction => "`action`",
        TokenKind::KwResource => "`resource`",
        TokenKind::KwContext => "`context`",
        TokenKind::KwTags => "`tags`",
        TokenKind::KwEnum => "`enum`",
        TokenKind::Identifier => "identifier",
        TokenKind::StringLit => "string literal",
        TokenKind::At => "`@`",
        TokenKind::Comma => "`,`",
        TokenKind::Semi => "`;`",
        TokenKind::Colon => "`:`",
        TokenKind::PathSep => "`::`",
        TokenKind::LParen => "`(`",
        TokenKind::RParen => "`)`",
        TokenKind::LBrace => "`{`",
        TokenKind::RBrace => "`}`",
        TokenKind::LBracket => "`[`",
        TokenKind::RBracket => "`]`",
        TokenKind::Less => "`<`",
        TokenKind::Greater => "`>`",
        TokenKind::Question => "`?`",
        TokenKind::Equals => "`=`",
        TokenKind::End => "end of input",
    }
}

// Adds the line of a kind.
fn push_kind(alloc: Global, lines: &mut Text, kind: TokenKind) -> Result<(), AllocError>
    ensures { OnOk result (lines.new ≡ lines.old ++ kind_line kind) }
{
    let name = message(alloc, name_of(kind))?;
    lines.push_text(&around(alloc, "kind ", &name, "\n")?)
}

// Adds a line for each kind.
fn push_kinds(alloc: Global, lines: &mut Text, kinds: &[TokenKind]) -> Result<(), AllocError>
    ensures { OnOk result (lines.new ≡ lines.old ++ flat_map kind_line kinds.now) }
{
    for kind in kinds {
        push_kind(alloc, lines, *kind)?;
    }
    Ok(())
}

// Adds a line for each name.
fn push_names(alloc: Global, lines: &mut Text, names: &[Text]) -> Result<(), AllocError>
    ensures { OnOk result (lines.new ≡ lines.old ++ flat_map name_line names.now) }
{
    for name in names {
        lines.push_text(&around(alloc, "name ", name, "\n")?)?;
    }
    Ok(())
}

/// A line for each kind and each name.
pub fn assistance_lines(alloc: Global, assistance: &Assistance) -> Result<Text, AllocError>
    ensures { IfOk result (λ lines. lines ≡ assistance_lines assistance.now) }
{
    let mut lines = Text::new(alloc);
    push_kinds(alloc, &mut lines, &assistance.expected)?;
    push_names(alloc, &mut lines, &assistance.names)?;
    Ok(lines)
}
