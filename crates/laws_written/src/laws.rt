//! Laws of what is written. Each law is what its function ensures; the functions do nothing but cite laws below them.
ghost use Rattle.std.specs.Prelude.{◌≡◌, ℕ, Bool, List};
ghost use Rattle.std.specs.List.{All, AllByRecursion, AllZip, flat_map};
ghost use Rattle.cedar_names.specs.Meaning.{PlainType, SchemaMeaning};
ghost use Rattle.cedar_names.specs.CanonicalText.{type_text, schema_text};
ghost use Rattle.schema_syntax_tokens.specs.declared.token.Token.{Token};
ghost use Rattle.schema_syntax_tokens.specs.Laid.{Lexeme, Spells, HasLexemes, laid, lexemes_of};
ghost use Rattle.cedar_data.specs.declared.node.Node.{Node};
ghost use Rattle.schema_syntax_parser.specs.declared.syntax.TypeSyntax.{TypeSyntax, out-TypeSyntax};
ghost use Rattle.schema_syntax_tree.specs.declared.types.Type.{«Type»};
ghost use Rattle.schema_syntax_reader.specs.Leaves.{Notes};
ghost use Rattle.schema_syntax_reader.specs.Sites.{sites_of, sites_of_type};
ghost use Rattle.schema_syntax_parser.specs.Syntax.{IsType, IsSyntax};
ghost use Rattle.laws_written.specs.Said.{SaidType, SaidAll};
ghost use Rattle.laws_written.specs.Shows.{SaysItem};
ghost use Rattle.schema_syntax_parser.specs.declared.syntax.ItemSyntax.{ItemSyntax};
ghost use Rattle.schema_syntax_tree.specs.declared.annotated.Annotated.{Annotated};
ghost use Rattle.schema_syntax_tree.specs.declared.namespace.Namespace.{Namespace};
ghost use Rattle.schema_syntax_reader.specs.Trees.{IsTypeOf as IsTreeOfType, IsTreeOf};
ghost use Rattle.laws_written.specs.Notes.{Note, AreNotesOf, AreArranged};
ghost use Rattle.laws_written.specs.Views.{ViewOfType};
ghost use Rattle.laws_written.specs.Written.{WrittenType, WrittenItem};
ghost use Rattle.laws_written.specs.Spellings.{SpellsType, SpellsSchema};
ghost use Rattle.laws_written.specs.Printed.{type_pieces, IsProperType};
ghost use Rattle.laws_written.specs.PrintedDecls.{Group, IsProperGroup, schema_pieces, group_items};
ghost use Rattle.laws_written.specs.Meant.{type_of_meaning, groups_of_meaning};
ghost use Rattle.laws_written.specs.Lexemes.{lexemes_at};
ghost use Rattle.schema_syntax_reader.specs.UserFaults.{IsLawful};
ghost use Rattle.schema_syntax_tokens.specs.Scans.{IsPlaced};
ghost use Rattle.laws_written.specs.ReadsBack.{ReadsBack};
ghost use Rattle.laws_written.specs.Reads.{IsFaultless, ReadsNotes, ReadsType, ReadsSchema};

use schema_syntax_tokens::laws::{laid_text_is_read, one_value, quoted_is_one_string};

/// Tokens that spell a type are read as it.
pub fn spelled_types_are_read()
    ensures { (source : List ℕ) (u : List Lexeme) (t : WrittenType) → SpellsType u t → (ts : List Token)
        → Spells source ts u → ReadsType source ts t }
{
    one_value();
}

/// A proper type that is laid out has lexemes that spell it, and is read as them; the type of a meaning, laid out, is
/// its text.
pub fn laid_types_are_spelled()
    ensures spelled { (closing : Bool) (base : ℕ) (t : WrittenType) → IsProperType t
        → SpellsType (lexemes_of (type_pieces closing base t)) t }
    ensures read { (closing : Bool) (base : ℕ) (t : WrittenType) → IsProperType t
        → HasLexemes (laid (type_pieces closing base t)) (lexemes_of (type_pieces closing base t)) }
    ensures meant { (closing : Bool) (base : ℕ) (t : PlainType)
        → laid (type_pieces closing base (type_of_meaning t)) ≡ type_text closing base t }
{
    laid_text_is_read();
    quoted_is_one_string();
}

/// Tokens that spell a schema are read as it.
pub fn spelled_schemas_are_read()
    ensures { (source : List ℕ) (u : List Lexeme) (w : List WrittenItem) → SpellsSchema u w → (ts : List Token)
        → Spells source ts u → ReadsSchema source ts w }
{
    one_value();
}

/// A schema of proper groups that is laid out has lexemes that spell it, and is read as them.
pub fn laid_schemas_are_spelled()
    ensures spelled { (closing : Bool) (groups : List Group) → AllByRecursion IsProperGroup groups
        → SpellsSchema (lexemes_of (schema_pieces closing groups)) (flat_map group_items groups) }
    ensures read { (closing : Bool) (groups : List Group) → AllByRecursion IsProperGroup groups
        → HasLexemes (laid (schema_pieces closing groups)) (lexemes_of (schema_pieces closing groups)) }
{
    laid_text_is_read();
    quoted_is_one_string();
}

/// The tree of a type is of the form of its syntax.
pub fn type_trees_by_form()
    ensures { (source : List ℕ) (t : TypeSyntax) (n : Node «Type») → IsTreeOfType source t n
        → ViewOfType source (out-TypeSyntax t) n }
{}

/// Tokens that spell annotations with distinct keys are read as the notes that they make.
pub fn spelled_notes_are_read()
    ensures { (source : List ℕ) (u : List Lexeme) (written : List Note) (notes : Notes) → AreNotesOf u written
        → AreArranged written notes → (ts : List Token) → Spells source ts u → ReadsNotes source ts notes }
{
    one_value();
}

/// The text of a meaning, in either layout, is what is written of it, laid out.
pub fn texts_of_meanings_are_laid_out()
    ensures { (closing : Bool) (m : SchemaMeaning)
        → laid (schema_pieces closing (groups_of_meaning m)) ≡ schema_text closing m }
{}

/// A schema of proper groups that is laid out, with or without a comma behind each last member, reads back.
pub fn laid_schemas_read_back()
    ensures { (closing : Bool) (groups : List Group) → AllByRecursion IsProperGroup groups
        → ReadsBack (laid (schema_pieces closing groups)) (flat_map group_items groups) }
{
    one_value();
    laid_schemas_are_spelled();
}

/// The text of a meaning reads back in either layout, where what is written of the meaning is proper groups.
pub fn texts_of_meanings_read_back()
    ensures { (closing : Bool) (m : SchemaMeaning) → AllByRecursion IsProperGroup (groups_of_meaning m)
        → ReadsBack (schema_text closing m) (flat_map group_items (groups_of_meaning m)) }
{
    laid_schemas_read_back();
    texts_of_meanings_are_laid_out();
}

/// What the tree of a type without a user fault says, its lexemes spell.
pub fn type_trees_are_spelled()
    ensures { (source : List ℕ) (ts : List Token) (t : TypeSyntax) (n : Node «Type») (u : List Lexeme) → IsType ts t
        → IsTreeOfType source t n → All (IsFaultless source) (sites_of_type t) → Spells source ts u
        → SaidType n.node u }
{}

/// What the tree of a lawful text says, its lexemes spell.
pub fn trees_are_spelled()
    ensures { (source : List ℕ) (ts : List Token) (items : List ItemSyntax) (tree : List (Annotated Namespace))
        (u : List Lexeme)
        → IsSyntax ts items → IsTreeOf source items tree → All (IsFaultless source) (sites_of items)
        → Spells source ts u → SaidAll SaysItem (SpellsSchema u) tree }
{}

/// Where two texts have the same lexemes, and the first is lawful, the second has a lawful syntax and a tree that says
/// the same. Tokens that stand at places of a text spell the lexemes there.
pub fn lexemes_decide_what_is_said()
    ensures same { (source other : List ℕ) (ts us : List Token) (u : List Lexeme) (items : List ItemSyntax)
        (tree : List (Annotated Namespace))
        → Spells source ts u → Spells other us u → IsSyntax ts items → IsLawful source items
        → IsTreeOf source items tree → (w : List WrittenItem) × AllZip SaysItem tree w × ReadsSchema other us w }
    ensures placed { (text : List ℕ) (tokens : List Token) → All (IsPlaced text) tokens
        → Spells text tokens (lexemes_at text tokens) }
{
    one_value();
}
