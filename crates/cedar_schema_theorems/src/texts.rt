//! What is proved of schema texts and their trees.
ghost use Rattle.std.specs.Prelude.{◌≡◌, ◌≤◌, ◌⊎◌, ℕ, Bool, List, length, IsUtf8};
ghost use Rattle.std.specs.List.{flat_map};
ghost use Rattle.cedar_identifiers.specs.declared.raw_name.RawName.{RawName};
ghost use Rattle.cedar_names.specs.Meaning.{SchemaMeaning};
ghost use Rattle.cedar_names.specs.CanonicalText.{schema_text};
ghost use Rattle.cedar_names.specs.declared.extension_table.ExtensionTable.{ExtensionTable};
ghost use Rattle.schema_syntax_grammar.specs.declared.token_kind.TokenKind.{TokenKind};
ghost use Rattle.schema_syntax_grammar.specs.declared.token_kind.TheConstants.{ALL_KINDS};
ghost use Rattle.schema_syntax_grammar.specs.Fault.{IsFault};
ghost use Rattle.schema_syntax_grammar.specs.Grammar.{Sentence};
ghost use Rattle.schema_syntax_tokens.specs.declared.token.Token.{Token};
ghost use Rattle.schema_syntax_tokens.specs.Scans.{Scans};
ghost use Rattle.schema_syntax_tokens.specs.TokenLists.{kinds_of};
ghost use Rattle.schema_syntax_parser.specs.declared.syntax.ItemSyntax.{ItemSyntax};
ghost use Rattle.schema_syntax_parser.specs.Syntax.{IsSyntax};
ghost use Rattle.schema_syntax_reader.specs.Sites.{sites_of};
ghost use Rattle.laws_syntax.specs.Sites.Readings.{picked, reads};
ghost use Rattle.laws_syntax.specs.Sites.SiteTokens.{tokens_of_sites};
ghost use Rattle.schema_syntax_tree.specs.declared.annotated.Annotated.{Annotated};
ghost use Rattle.schema_syntax_tree.specs.declared.namespace.Namespace.{Namespace};
ghost use Rattle.schema_syntax_errors.specs.declared.parse_error.ParseError.{ParseError};
ghost use Rattle.schema_syntax.specs.ParseAnswers.{IsTreeOfText, IsErrorOf};
ghost use Rattle.schema_syntax.specs.SyntaxFaults.{IsSyntaxFault};
ghost use Rattle.schema_syntax.specs.declared.syntax_fault.SyntaxFault.{SyntaxFault};
ghost use Rattle.schema_json.specs.declared.fragment.Fragment.{Fragment};
ghost use Rattle.schema_json.specs.AsWritten.{as_written};
ghost use Rattle.schema_convert_errors.specs.declared.warnings.SchemaWarning.{SchemaWarning};
ghost use Rattle.schema_convert.specs.Translated.{IsTranslationOfText};
ghost use Rattle.laws_written.specs.Meant.{groups_of_meaning};
ghost use Rattle.laws_written.specs.PrintedDecls.{group_items};
ghost use Rattle.laws_translate.specs.MeantNames.{HasOpenNames, IsOfWords};
ghost use Rattle.laws_translate.specs.TranslatedAs.{IsTranslatedAs};

use cedar_schema_core::one_translation;
use laws_syntax::scanning::{kinds_have_a_fault_or_none, texts_are_scanned};
use laws_syntax::site_tokens::sites_are_names_and_strings;
use laws_syntax::trees::{one_error, one_tree};
use laws_translate::laws::texts_of_meanings_are_translated;
use schema_syntax::laws::{one_syntax_fault, tree_or_error};

/// Each text in UTF-8 is scanned: it has tokens, up to a place in it.
pub fn a_text_is_scanned()
    ensures { (text : List ℕ) → IsUtf8 text
        → (tokens : List Token) × (at : ℕ) × Scans text tokens at × (at ≤ length text) }
{
    texts_are_scanned();
}

/// Kinds of tokens are those of a schema, or they have a fault: a place where they stop being the beginning of one,
/// with the kinds that could stand there.
pub fn kinds_are_a_schema_or_have_a_fault()
    ensures { (kinds : List TokenKind) → Sentence kinds
        ⊎ ((place : ℕ) × (list : List TokenKind) × IsFault ALL_KINDS kinds place list) }
{
    kinds_have_a_fault_or_none();
}

/// A text has at most one tree.
pub fn a_text_has_one_tree()
    ensures { (text : List ℕ) (tree other : List (Annotated Namespace)) → IsTreeOfText text tree
        → IsTreeOfText text other
        → tree ≡ other }
{
    one_tree();
}

/// A text has at most one syntax fault: one leftmost place, one token there, and one list of the kinds of tokens that
/// could stand there.
pub fn a_text_has_one_syntax_fault()
    ensures { (text : List ℕ) (fault other : SyntaxFault) → IsSyntaxFault text fault → IsSyntaxFault text other
        → fault ≡ other }
{
    one_syntax_fault();
}

/// The words and strings of a syntax are exactly the tokens that the grammar reads as such: the kinds of the tokens
/// have a derivation, and each derivation that they have reads these tokens so, and no others.
pub fn the_grammar_says_what_is_read()
    ensures { (tokens : List Token) (items : List ItemSyntax) → IsSyntax tokens items
        → Sentence (kinds_of tokens)
        × ((d : Sentence (kinds_of tokens)) → tokens_of_sites (sites_of items) ≡ picked (reads d) tokens) }
{
    sites_are_names_and_strings();
}

/// A text in UTF-8 has at most one error: its syntax fault, or, of its user faults, the one that ends first.
pub fn a_text_has_one_error()
    ensures { (text : List ℕ) → IsUtf8 text → (error other : ParseError) → IsErrorOf text error → IsErrorOf text other
        → error ≡ other }
{
    one_error();
}

/// No text has a tree and an error.
pub fn a_tree_or_an_error()
    ensures { (text : List ℕ) (tree : List (Annotated Namespace)) (error : ParseError) → IsTreeOfText text tree
        → IsErrorOf text error → ⊥ }
{
    tree_or_error();
}

/// Under a table a text is translated to at most one fragment, with one list of warnings.
pub fn a_text_has_one_translation()
    ensures { (text : List ℕ) (table : ExtensionTable) (f g : Fragment RawName as_written) (v w : List SchemaWarning)
        → IsTranslationOfText text table f v → IsTranslationOfText text table g w → (f ≡ g) × (v ≡ w) }
{
    one_translation();
}

/// The text of a meaning, with a comma behind every member or between members, has a tree and no fault, and its
/// fragment says what is written of the meaning. Each name in the meaning is to be made of words, and each enum to have
/// a choice; the entity types and the actions are to be in the order of their names, no name may be reserved, and the
/// type of each action is to be the `Action` of a namespace.
pub fn texts_of_meanings_say_them()
    ensures { (closing : Bool) (m : SchemaMeaning) → IsOfWords m → HasOpenNames m
        → IsTranslatedAs (schema_text closing m) (flat_map group_items (groups_of_meaning m)) }
{
    texts_of_meanings_are_translated();
}
