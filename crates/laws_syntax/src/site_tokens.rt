//! Laws of how the words and strings of a text are read. Each law is what its function ensures; the functions do
//! nothing.
ghost use Rattle.std.specs.Prelude.{◌≡◌, true, false, List, [], ◌∷◌};
ghost use Rattle.schema_syntax_grammar.specs.declared.token_kind.TokenKind.{TokenKind};
ghost use Rattle.schema_syntax_grammar.specs.declared.token_kind.TokenKind.TheVariants.{KwEntity, KwIn, KwType};
ghost use Rattle.schema_syntax_grammar.specs.declared.token_kind.TokenKind.TheVariants.{KwSet, At, Less, Greater};
ghost use Rattle.schema_syntax_grammar.specs.declared.token_kind.TokenKind.TheVariants.{Equals, Semi};
ghost use Rattle.schema_syntax_grammar.specs.Grammar.{Nonterminal, Phrase, Sentence};
ghost use Rattle.schema_syntax_tokens.specs.declared.token.Token.{Token};
ghost use Rattle.schema_syntax_tokens.specs.TokenLists.{kinds_of};
ghost use Rattle.schema_syntax_parser.specs.declared.syntax.ItemSyntax.{ItemSyntax};
ghost use Rattle.schema_syntax_parser.specs.Syntax.{IsSyntax};
ghost use Rattle.schema_syntax_reader.specs.Sites.{sites_of};
ghost use Rattle.laws_syntax.specs.Sites.Readings.{AreReadings, picked, reads};
ghost use Rattle.laws_syntax.specs.Sites.SiteTokens.{tokens_of_sites};

/// The words and strings of the sites of a syntax are exactly, in order, the tokens that the grammar reads as such: the
/// kinds of the tokens have a derivation, and each derivation that they have reads these tokens so, and no others.
pub fn sites_are_names_and_strings()
    ensures { (tokens : List Token) (items : List ItemSyntax) → IsSyntax tokens items
        → Sentence (kinds_of tokens)
        × ((d : Sentence (kinds_of tokens)) → tokens_of_sites (sites_of items) ≡ picked (reads d) tokens) }
{}

/// A derivation says of each of its kinds how it is read: as words and strings nothing but such, and among them each
/// identifier and each string. Of a keyword the production says it in which it stands.
pub fn readings_are_words_and_strings()
    ensures { (part : Nonterminal) (kinds : List TokenKind) (d : Phrase part kinds) → AreReadings (reads d) kinds }
{}

/// Two derivations of the same kinds read each kind alike.
pub fn one_reading()
    ensures { (kinds : List TokenKind) (d e : Sentence kinds) → reads d ≡ reads e }
{}

/// A keyword is read by its place: in `entity type;`, `type` is a name; in `@in type Set = Set<Set>;`, `in` is a key,
/// the first and the last `Set` are names, and `type` and the other `Set` stand for themselves.
pub fn keywords_are_read_by_place()
    ensures entity { (d : Sentence (KwEntity ∷ KwType ∷ Semi ∷ [])) → reads d ≡ false ∷ true ∷ false ∷ [] }
    ensures common { (d : Sentence
        (At ∷ KwIn ∷ KwType ∷ KwSet ∷ Equals ∷ KwSet ∷ Less ∷ KwSet ∷ Greater ∷ Semi ∷ []))
        → reads d ≡ false ∷ true ∷ false ∷ true ∷ false ∷ false ∷ false ∷ true ∷ false ∷ false ∷ [] }
{}
