//! Laws of the layout. Each law is what its function ensures.
ghost use Rattle.std.specs.Prelude.{◌≡◌, ℕ, List, true, false, length};
ghost use Rattle.schema_syntax_grammar.specs.declared.token_kind.TokenKind.{TokenKind};
ghost use Rattle.schema_syntax_grammar.specs.Grammar.{Sentence};
ghost use Rattle.schema_syntax_tokens.specs.declared.token.Token.{Token};
ghost use Rattle.schema_syntax_tokens.specs.Laid.{HasLexemes};
ghost use Rattle.schema_syntax_tokens.specs.Scans.{Scans};
ghost use Rattle.schema_syntax_tokens.specs.TokenLists as TokenLists;
ghost use Rattle.schema_layout_pieces.specs.Kinds.{is_apart};
ghost use Rattle.schema_layout_pieces.specs.Pieces.{SourcePiece, IsPieces, kinds_among, lexemes_among};
ghost use Rattle.schema_layout_pieces.specs.Layout.{laid};
ghost use Rattle.schema_layout_pieces.specs.LaidOut.{IsLaidOut, IsLaidOutKept, HaveSamePieces};
ghost use Rattle.schema_layout_pieces.specs.Writing.{IsWritten};

/// In a schema no `:` stands before a `:` or `::`.
pub fn sentences_are_apart()
    ensures { (kinds : List TokenKind) → Sentence kinds → is_apart kinds ≡ true }
{}

/// A text has at most one list of pieces; their tokens are its tokens; and where tokens go through it to its end, it
/// has pieces.
pub fn pieces_of_texts()
    ensures one { (text : List ℕ) (pieces others : List SourcePiece) → IsPieces text pieces → IsPieces text others
        → pieces ≡ others }
    ensures tokens { (text : List ℕ) (pieces : List SourcePiece) → IsPieces text pieces
        → HasLexemes text (lexemes_among pieces) }
    ensures some { (text : List ℕ) (tokens : List Token) → Scans text tokens (length text)
        → (pieces : List SourcePiece) × IsPieces text pieces × (kinds_among pieces ≡ TokenLists.kinds_of tokens) }
{}

/// The pieces of a schema, laid out, are a text of these pieces.
pub fn laid_pieces_are_read_back()
    ensures { (text : List ℕ) (pieces : List SourcePiece) → IsPieces text pieces → Sentence (kinds_among pieces)
        → IsPieces (laid pieces) pieces }
{}

/// A schema laid out has its pieces, and is laid out already.
pub fn laid_texts_stay()
    ensures pieces { (old new : List ℕ) (pieces : List SourcePiece) → IsPieces old pieces
        → Sentence (kinds_among pieces)
        → IsLaidOut old new → HaveSamePieces old new }
    ensures once { (old new again : List ℕ) (pieces : List SourcePiece) → IsPieces old pieces
        → Sentence (kinds_among pieces) → IsLaidOut old new → IsLaidOut new again → again ≡ new }
{}

/// A schema laid out with its empty lines has its pieces, and is laid out already.
pub fn kept_texts_stay()
    ensures pieces { (old new : List ℕ) (pieces : List SourcePiece) → IsPieces old pieces
        → Sentence (kinds_among pieces)
        → IsLaidOutKept old new → HaveSamePieces old new }
    ensures once { (old new again : List ℕ) (pieces : List SourcePiece) → IsPieces old pieces
        → Sentence (kinds_among pieces) → IsLaidOutKept old new → IsLaidOutKept new again → again ≡ new }
{}

/// What is written is laid out, with empty lines kept or without any.
pub fn written_is_laid_out()
    ensures plain { (old new : List ℕ) → IsWritten false old new → IsLaidOut old new }
    ensures kept { (old new : List ℕ) → IsWritten true old new → IsLaidOutKept old new }
{}
