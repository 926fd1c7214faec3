//! Laws of tokens and strings. Each law is what its function ensures; the functions do nothing.
ghost use Rattle.std.specs.Prelude.{◌≡◌, ◌++◌, ◌↔◌, List, ℕ, length};
ghost use Rattle.std.specs.Str.{encode_utf8_all};
ghost use Rattle.schema_syntax_grammar.specs.declared.token_kind.TokenKind.TheVariants.{StringLit};
ghost use Rattle.schema_syntax_tokens.specs.declared.token.Token.{Token};
ghost use Rattle.schema_syntax_tokens.specs.Forms.{IsBody, IsForm};
ghost use Rattle.schema_syntax_tokens.specs.Scans.{IsLongest, Scans};
ghost use Rattle.schema_syntax_tokens.specs.Escapes.{Unescapes, BadEscape};
ghost use Rattle.schema_syntax_tokens.specs.Laid.{Piece, free, Follow, HasLexemes, laid, lexemes_of};
ghost use Rattle.schema_syntax_tokens.specs.Quotes.{quoted, quoted_body};

/// A text has at most one list of tokens, and one place where they stop.
pub fn one_scan()
    ensures { (text : List ℕ) (ts us : List Token) (at bt : ℕ) → Scans text ts at → Scans text us bt
        → (ts ≡ us) × (at ≡ bt) }
{}

/// A body has at most one value, or a first bad escape, and only one.
pub fn one_value()
    ensures value { (body cs ds : List ℕ) → Unescapes body cs → Unescapes body ds → cs ≡ ds }
    ensures value_or_bad { (body cs : List ℕ) (at : ℕ) → Unescapes body cs → BadEscape body at → ⊥ }
    ensures bad { (body : List ℕ) (at bt : ℕ) → BadEscape body at → BadEscape body bt → at ≡ bt }
{}

/// A text written as a string is one string token, whatever follows it, and that string stands for the text.
pub fn quoted_is_one_string()
    ensures token { (cs after : List ℕ) → IsLongest (quoted cs ++ after) StringLit (length (quoted cs)) }
    ensures value { (cs : List ℕ) → Unescapes (quoted_body cs) cs }
{}

/// A text is the body of a string by its bytes exactly where it is one by its characters.
pub fn pieces_by_characters()
    ensures { (cs : List ℕ) → (IsBody (encode_utf8_all cs) ↔ IsBody cs) }
{}

/// A text that is laid out from lexemes, none of which merges with the next, is read as these lexemes. A text written
/// as a string is such a lexeme.
pub fn laid_text_is_read()
    ensures read { (ps : List Piece) → Follow free ps → HasLexemes (laid ps) (lexemes_of ps) }
    ensures string { (cs : List ℕ) → IsForm (quoted cs) StringLit }
{}
