ghost use Rattle.std.specs.Prelude.{IfOk, IfErr, length};
ghost use Rattle.std.specs.List.{All};
ghost use Rattle.std.specs.Str.{encode_utf8_all};
ghost use Rattle.schema_syntax_grammar.specs.Grammar.{Sentence};
ghost use Rattle.schema_syntax_tokens.specs.Scans.{Scans, IsPlaced};
ghost use Rattle.schema_syntax_tokens.specs.TokenLists.{kinds_of};
ghost use Rattle.schema_syntax_reader.specs.LawfulTrees.{IsStopOf};
ghost use Rattle.schema_layout_pieces.specs.LaidOut.{IsLaidOut, IsLaidOutKept, HaveSamePieces};
ghost use Rattle.schema_layout_pieces.specs.Writing.{IsWritten};
ghost use Rattle.schema_layout_texts.specs.Answers.{HasTree, HaveLawfulTree, IsLayoutRefusal};
ghost use Rattle.schema_layout_texts.specs.Answers.{StaysLaidOut, StaysLaidOutKept};

use crate::laws::{kept_schemas_stay, laid_schemas_stay};
use crate::layout_error::{LayoutError, layout_error_of};
use cedar_data::Text;
use schema_layout_pieces::laws::{pieces_of_texts, written_is_laid_out};
use schema_layout_pieces::write_layout;
use schema_syntax::{refused, sentence_of, stopped};
use schema_syntax_parser::next_item;
use schema_syntax_reader::{Stopped, item};
use schema_syntax_tokens::ShortToken;
use std::alloc::Global;

// Whether the tokens, which are those of a schema, have no user fault; else of these faults the one that ends first.
// Each item is let go as soon as it is read, so that no tree is kept.
fn check_items(alloc: Global, text: &str, tokens: &[ShortToken]) -> Result<(), Stopped>
    requires scans { Scans text.now tokens.now (length text.now) }
    requires placed { All (IsPlaced text.now) tokens.now }
    requires sentence { Sentence (kinds_of tokens.now) }
    ensures tree { IfOk result (λ _. HaveLawfulTree text.now tokens.now) }
    ensures fault { IfErr result (IsStopOf text.now tokens.now) }
{
    let mut rest = tokens;
    while let Some((raw, after)) = next_item(alloc, rest)? {
        let namespace = item(alloc, text, raw)?;
        drop(namespace);
        rest = after;
    }
    Ok(())
}

// The text laid out anew, with empty lines kept or without any.
fn lay_out(alloc: Global, text: &str, keeps: bool) -> Result<Text, LayoutError>
    ensures written { IfOk result (λ out. IsWritten keeps text.now (encode_utf8_all out)) }
    ensures tree { IfOk result (λ _. HasTree text.now) }
    ensures refused { IfErr result (IsLayoutRefusal text.now) }
{
    pieces_of_texts();
    let tokens = match sentence_of(alloc, text) {
        Ok(tokens) => tokens,
        Err(why) => return Err(layout_error_of(refused(alloc, why))),
    };
    if let Err(why) = check_items(alloc, text, &tokens) {
        return Err(layout_error_of(stopped(alloc, why)));
    }
    drop(tokens);
    let out = write_layout(alloc, text, keeps)?;
    Ok(Text::from_string(out))
}

/// The schema text laid out anew: its tokens and comments in order, one gap between each two of them, and no empty
/// line.
pub fn layout(alloc: Global, text: &str) -> Result<Text, LayoutError>
    // The text laid out, which has the same tokens and comments, is a schema too, and stays as it is when laid out
    // again.
    ensures laid { IfOk result (λ out. IsLaidOut text.now (encode_utf8_all out)) }
    ensures pieces { IfOk result (λ out. HaveSamePieces text.now (encode_utf8_all out)) }
    ensures schema { IfOk result (λ out. HasTree (encode_utf8_all out)) }
    ensures fixed { IfOk result (λ out. StaysLaidOut (encode_utf8_all out)) }

    // A text with a tree is laid out, and one without is refused with its faults.
    ensures tree { IfOk result (λ _. HasTree text.now) }
    ensures refused { IfErr result (IsLayoutRefusal text.now) }
{
    laid_schemas_stay();
    written_is_laid_out();
    lay_out(alloc, text, false)
}

/// The schema text laid out anew, with one empty line left before a piece on a line of its own where there were any,
/// but none behind `{`, nor before `}`.
pub fn layout_kept(alloc: Global, text: &str) -> Result<Text, LayoutError>
    // The text laid out, which has the same tokens and comments, is a schema too, and stays as it is when laid out
    // again.
    ensures laid { IfOk result (λ out. IsLaidOutKept text.now (encode_utf8_all out)) }
    ensures pieces { IfOk result (λ out. HaveSamePieces text.now (encode_utf8_all out)) }
    ensures schema { IfOk result (λ out. HasTree (encode_utf8_all out)) }
    ensures fixed { IfOk result (λ out. StaysLaidOutKept (encode_utf8_all out)) }

    // A text with a tree is laid out, and one without is refused with its faults.
    ensures tree { IfOk result (λ _. HasTree text.now) }
    ensures refused { IfErr result (IsLayoutRefusal text.now) }
{
    kept_schemas_stay();
    written_is_laid_out();
    lay_out(alloc, text, true)
}
