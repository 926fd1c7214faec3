ghost use Rattle.std.specs.Prelude.{◌≡◌, [], ◌∷◌, length, IfOk, IfErr};
ghost use Rattle.std.specs.Prelude.{ℕ, List};
ghost use Rattle.std.specs.List.{All};
ghost use Rattle.schema_syntax_grammar.specs.Grammar.{Sentence};
ghost use Rattle.schema_syntax_tokens.specs.Scans.{Scans, IsPlaced};
ghost use Rattle.schema_syntax_tokens.specs.TokenLists.{kinds_of};
ghost use Rattle.schema_syntax_tokens.specs.declared.token.Token.{Token};
ghost use Rattle.schema_syntax_reader.specs.LawfulTrees.{IsStopOf};
ghost use Rattle.schema_syntax.specs.SyntaxFaults.{IsSyntaxRefusal};
ghost use Rattle.schema_syntax.specs.ParseAnswers.{AreTokensOf, IsTreeOfText, IsRefusalOf, error_of};

use crate::syntax_fault::{Refused, SyntaxFault, sentence_of};
use schema_syntax_errors::{ParseError, ParseErrors, ParseSchemaError};
use schema_syntax_reader::{Stopped, tree_of_tokens};
use schema_syntax_tokens::ShortToken;
use schema_syntax_tree::Schema;
use std::alloc::Global;

// The error that says the fault.
fn error_of(fault: SyntaxFault) -> ParseError
    ensures { result ≡ error_of fault }
{
    match fault {
        SyntaxFault::InvalidToken(location) => ParseError::InvalidToken { location },
        SyntaxFault::UnrecognizedEof(location, expected) => {
            ParseError::UnrecognizedEof { location, expected }
        }
        SyntaxFault::UnrecognizedToken(start, token, end, expected) => {
            ParseError::UnrecognizedToken {
                start,
                token,
                end,
                expected,
            }
        }
    }
}

// The list of the one fault.
fn only(alloc: Global, error: ParseError) -> ParseSchemaError
    ensures { result ≡ ParseSchemaError.Errors (record { errors = error ∷ [] }) }
{
    ParseSchemaError::Errors(ParseErrors::new(error, Vec::new(alloc)))
}

/// The error of a text that is refused by its tokens or its grammar.
pub fn refused(alloc: Global, why: Refused) -> ParseSchemaError
    ensures { (text : List ℕ) → IsSyntaxRefusal text why → IsRefusalOf text result }
{
    match why {
        Refused::Memory => ParseSchemaError::Memory,
        Refused::Fault(fault) => only(alloc, error_of(fault)),
    }
}

/// The error of a text whose sites were not all read.
pub fn stopped(alloc: Global, why: Stopped) -> ParseSchemaError
    ensures { (text : List ℕ) (tokens : List Token) → AreTokensOf text tokens → IsStopOf text tokens why
        → IsRefusalOf text result }
{
    match why {
        Stopped::Memory => ParseSchemaError::Memory,
        Stopped::User(fault) => only(alloc, ParseError::User(fault.into_inner())),
    }
}

/// The tree of a schema text whose tokens these are, which are those of a schema; or of its user faults the one that
/// ends first.
pub fn parse_tokens<'a>(
    alloc: Global,
    text: &'a str,
    tokens: Vec<ShortToken>,
) -> Result<Schema<'a>, ParseSchemaError>
    requires scans { Scans text.now tokens.items (length text.now) }
    requires placed { All (IsPlaced text.now) tokens.items }
    requires sentence { Sentence (kinds_of tokens.items) }
    ensures tree { IfOk result (IsTreeOfText text.now) }
    ensures fault { IfErr result (IsRefusalOf text.now) }
{
    match tree_of_tokens(alloc, text, tokens) {
        Ok(schema) => Ok(schema),
        Err(why) => Err(stopped(alloc, why)),
    }
}

/// The tree of a schema text. A refused text has its one syntax fault, or else, of its user faults, the one that ends
/// first.
pub fn parse_schema<'a>(alloc: Global, text: &'a str) -> Result<Schema<'a>, ParseSchemaError>
    ensures tree { IfOk result (IsTreeOfText text.now) }
    ensures fault { IfErr result (IsRefusalOf text.now) }
{
    match sentence_of(alloc, text) {
        Err(why) => Err(refused(alloc, why)),
        Ok(tokens) => parse_tokens(alloc, text, tokens),
    }
}
