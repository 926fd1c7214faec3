//! Each text is scanned, and each list of kinds is a sentence or has a fault. Each law is what its function ensures;
//! the functions do nothing.
ghost use Rattle.std.specs.Prelude.{◌≤◌, ◌⊎◌, ℕ, List, length, IsUtf8};
ghost use Rattle.schema_syntax_grammar.specs.declared.token_kind.TokenKind.{TokenKind as Kind};
ghost use Rattle.schema_syntax_grammar.specs.declared.token_kind.TheConstants.{ALL_KINDS};
ghost use Rattle.schema_syntax_grammar.specs.Grammar.{Sentence};
ghost use Rattle.schema_syntax_grammar.specs.Fault.{IsFault};
ghost use Rattle.schema_syntax_tokens.specs.declared.token.Token.{Token};
ghost use Rattle.schema_syntax_tokens.specs.Scans.{Scans};

/// A text in UTF-8 has tokens, up to some place in it.
pub fn texts_are_scanned()
    ensures { (text : List ℕ) → IsUtf8 text
        → (tokens : List Token) × (at : ℕ) × Scans text tokens at × (at ≤ length text) }
{}

/// Kinds are those of a schema, or there is a place where they stop being the beginning of one.
pub fn kinds_have_a_fault_or_none()
    ensures { (kinds : List Kind) → Sentence kinds
        ⊎ ((place : ℕ) × (list : List Kind) × IsFault ALL_KINDS kinds place list) }
{}
