//! Laws of the syntax of tokens. Each law is what its function ensures; the functions do nothing.
ghost use Rattle.std.specs.Prelude.{◌≡◌, ◌↔◌, List};
ghost use Rattle.schema_syntax_grammar.specs.Grammar.{Sentence};
ghost use Rattle.schema_syntax_tokens.specs.declared.token.Token.{Token};
ghost use Rattle.schema_syntax_parser.specs.declared.syntax.ItemSyntax.{ItemSyntax};
ghost use Rattle.schema_syntax_parser.specs.Syntax.{IsSyntax};
ghost use Rattle.schema_syntax_tokens.specs.TokenLists.{kinds_of};

/// A list of tokens has at most one syntax.
pub fn one_syntax()
    ensures { (tokens : List Token) (items others : List ItemSyntax) → IsSyntax tokens items → IsSyntax tokens others
        → items ≡ others }
{}

/// Tokens with a syntax have the kinds of a schema.
pub fn syntax_is_sentence()
    ensures { (tokens : List Token) (items : List ItemSyntax) → IsSyntax tokens items → Sentence (kinds_of tokens) }
{}

/// Tokens have a syntax exactly where their kinds are those of a schema.
pub fn sentences_have_a_syntax()
    ensures { (tokens : List Token) → (Sentence (kinds_of tokens)
        ↔ ((items : List ItemSyntax) × IsSyntax tokens items)) }
{}
