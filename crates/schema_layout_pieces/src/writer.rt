ghost use Rattle.std.specs.Prelude.{◌≡◌, ◌≤◌, ◌<◌, ◌↔◌, ◌++◌, ℕ, Bool, true, List, length, IfOk, IfSome, IsTrue};
ghost use Rattle.std.specs.Prelude.{MatchOption, not, ◌&&◌};
ghost use Rattle.std.specs.Char.{is_whitespace, encode_utf8};
ghost use Rattle.std.specs.Str.{IsUtf8};
ghost use Rattle.std.specs.String.{string_bytes};
ghost use Rattle.schema_syntax_tokens.specs.Scans.{NoBlank};
ghost use Rattle.schema_syntax_tokens.specs.Steps.{StartsComment, IsPrinted};
ghost use Rattle.schema_layout_pieces.specs.declared.context.Feeds.TheVariants.{NoFeed};
ghost use Rattle.schema_layout_pieces.specs.declared.context.Gap.TheVariants.{NewLine};
ghost use Rattle.schema_layout_pieces.specs.Pieces.{SourcePiece, IsPieces, ends_line};
ghost use Rattle.schema_layout_pieces.specs.Layout.{past_comment, past_token, gap_text, last_end};
ghost use Rattle.schema_layout_pieces.specs.Kept.{spaced_text};
ghost use Rattle.schema_layout_pieces.specs.Writing.{IsWritten, IsWhole, is_near, comment_gap, token_gap};

use crate::context::{Context, Feeds, Gap, Last};
use schema_syntax_grammar::TokenKind;
use schema_syntax_tokens::{line_len, starts_comment, token_of};
use std::alloc::{AllocError, Global};

// Begins a line whose piece stands at this depth.
fn push_line(text: &mut String, depth: usize) -> Result<(), AllocError>
    ensures { IfOk result (λ _. string_bytes text.new ≡ string_bytes text.old ++ gap_text NewLine depth) }
{
    text.push_str("\n")?;
    for _ in 0..depth {
        text.push_str("  ")?;
    }
    Ok(())
}

// Writes a gap before a piece that stands at this depth on a line of its own, with or without an empty line.
fn push_gap(text: &mut String, gap: Gap, spaced: bool, depth: usize) -> Result<(), AllocError>
    ensures { IfOk result (λ _. string_bytes text.new ≡ string_bytes text.old ++ spaced_text gap spaced depth) }
{
    match gap {
        Gap::NoGap => Ok(()),
        Gap::Space => text.push_str(" "),
        Gap::NewLine => {
            if spaced {
                text.push_str("\n")?;
                return push_line(text, depth);
            }
            push_line(text, depth)
        }
    }
}

// Writes a comment, which is this line, behind its gap.
fn push_comment(
    text: &mut String,
    context: &mut Context,
    near: bool,
    spaced: bool,
    line: &str,
) -> Result<(), AllocError>
    ensures text { IfOk result (λ _. string_bytes text.new
        ≡ (string_bytes text.old ++ comment_gap context.old near spaced) ++ line.now) }
    ensures context { IfOk result (λ _. context.new ≡ past_comment context.old) }
{
    let stays = spaced && context.may_be_spaced(false);
    push_gap(text, context.gap_to_comment(near), stays, context.depth())?;
    text.push_str(line)?;
    context.pass_comment();
    Ok(())
}

// Writes a token of this kind, which is this word, behind its gap.
fn push_token(
    text: &mut String,
    context: &mut Context,
    spaced: bool,
    kind: TokenKind,
    word: &str,
) -> Result<(), AllocError>
    ensures text { IfOk result (λ _. string_bytes text.new
        ≡ (string_bytes text.old ++ token_gap context.old spaced kind) ++ word.now) }
    ensures context { IfOk result (λ _. context.new ≡ past_token context.old kind) }
{
    let stays = spaced && context.may_be_spaced(kind == TokenKind::RBrace);
    push_gap(
        text,
        context.gap_to_token(kind),
        stays,
        context.depth_at(kind),
    )?;
    text.push_str(word)?;
    context.pass_token(kind)
}

// The white space that the text begins with, as a character, and what follows it. `None` where it begins with none.
fn first_blank(rest: &str) -> Option<(char, &str)>
    ensures cases { MatchOption result ((StartsComment rest.now → ⊥) → NoBlank rest.now)
        (λ found. (is_whitespace found.0 ≡ true) × (rest.now ≡ encode_utf8 found.0 ++ found.1.now)) }
    ensures shorter { IfSome result (λ found. length found.1.now < length rest.now) }
{
    if let [first, ..] = rest.as_bytes() {
        if *first == b' ' {
            let (_, after) = rest.split_at(1);
            return Some((' ', after));
        }
        if starts_no_blank(*first) {
            return None;
        }
    }
    let mut chars = rest.chars();
    let first = chars.next()?;
    if first.is_whitespace() {
        return Some((first, chars.as_str()));
    }
    None
}

// Whether no blank begins with the byte: it is printed, and no slash.
fn starts_no_blank(byte: u8) -> bool
    ensures { IsTrue result ↔ IsPrinted byte }
{
    byte > b' ' && byte < 127 && byte != b'/'
}

// Writes the comments among the blanks that the rest begins with. The answer is what follows these blanks, and the line
// feeds behind the last comment.
fn push_comments<'a>(
    text: &mut String,
    context: &mut Context,
    keeps: bool,
    rest: &'a str,
) -> Result<(&'a str, Feeds), AllocError>
    ensures whole { IfOk result (λ after. (whole : List ℕ)
        → IsWhole keeps whole (string_bytes text.old) context.old (is_near context.old.last) NoFeed rest.now
        → (near : Bool) × IsWhole keeps whole (string_bytes text.new) context.new near after.1 after.0.now) }
    ensures stop { IfOk result (λ after. NoBlank after.0.now) }
    ensures shorter { IfOk result (λ after. length after.0.now ≤ length rest.now) }
    ensures utf8 { IfOk result (λ after. IsUtf8 after.0.now) }
{
    let mut rest = rest;
    let mut near = context.last() == Last::Token;
    let mut feeds = Feeds::NoFeed;
    loop {
        if starts_comment(rest.as_bytes()) {
            let (line, after) = rest.split_at(line_len(rest.as_bytes()));
            push_comment(text, context, near, feeds.has_kept_line(keeps), line)?;
            near = false;
            feeds = Feeds::NoFeed;
            rest = after;
        } else {
            match first_blank(rest) {
                None => return Ok((rest, feeds)),
                Some((first, after)) => {
                    near = stays_near(near, first);
                    feeds = feeds.fed(first);
                    rest = after;
                }
            }
        }
    }
}

// Whether what follows this character is still in the line of the last piece.
fn stays_near(near: bool, first: char) -> bool
    ensures { result ≡ (near && not (ends_line first)) }
{
    near && first != '\n' && first != '\r'
}

// The text with the end that it has behind this piece.
fn ended(mut text: String, last: Last) -> Result<String, AllocError>
    ensures { IfOk result (λ out. string_bytes out ≡ string_bytes text ++ last_end last) }
{
    if last != Last::Nothing {
        text.push_str("\n")?;
    }
    Ok(text)
}

/// The text, which has pieces, laid out anew, with empty lines kept or without any.
pub fn write_layout(alloc: Global, text: &str, keeps: bool) -> Result<String, AllocError>
    requires pieces { (pieces : List SourcePiece) × IsPieces text.now pieces }
    ensures { IfOk result (λ out. IsWritten keeps text.now (string_bytes out)) }
{
    let mut out = String::with_capacity(alloc, text.len())?;
    let mut context = Context::new(alloc);
    let mut rest = text;
    loop {
        let (here, feeds) = push_comments(&mut out, &mut context, keeps, rest)?;
        match token_of(here) {
            None => {
                let whole = ended(out, context.last())?;
                return Ok(whole);
            }
            Some((kind, len)) => {
                let (word, after) = here.split_at(len);
                let spaced = feeds.has_kept_line(keeps);
                push_token(&mut out, &mut context, spaced, kind, word)?;
                rest = after;
            }
        }
    }
}
