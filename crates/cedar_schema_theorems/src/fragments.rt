//! What is proved of trees, of the fragments that they stand for, and of what fragments mean.
ghost use Rattle.std.specs.Prelude.{◌≡◌, ◌↔◌, ◌⊎◌, Bool, List, []};
ghost use Rattle.std.specs.List.{AllZip, AllByRecursion, flat_map};
ghost use Rattle.cedar_identifiers.specs.declared.raw_name.RawName.{RawName as Raw};
ghost use Rattle.cedar_names.specs.Meaning.{SchemaMeaning};
ghost use Rattle.cedar_names.specs.declared.extension_table.ExtensionTable.{ExtensionTable};
ghost use Rattle.schema_syntax_tokens.specs.Laid.{laid};
ghost use Rattle.schema_syntax_tree.specs.declared.annotated.Annotated.{Annotated};
ghost use Rattle.schema_syntax_tree.specs.declared.namespace.Namespace.{Namespace};
ghost use Rattle.schema_json.specs.declared.fragment.Fragment.{Fragment as Fragments};
ghost use Rattle.schema_json.specs.AsWritten.{as_written};
ghost use Rattle.schema_convert_faults.specs.Faults.{translation_faults};
ghost use Rattle.schema_convert_faults.specs.Translatable.{IsTranslatable};
ghost use Rattle.schema_convert_plain.specs.Translation.{translated};
ghost use Rattle.laws_written.specs.PrintedDecls.{Group, group_items, schema_pieces};
ghost use Rattle.laws_written.specs.Shows.{SaysItem};
ghost use Rattle.laws_written.specs.Written.{WrittenItem};
ghost use Rattle.laws_translate.specs.BareFragments.{bare_fragment};
ghost use Rattle.laws_translate.specs.Named.{IsWellNamed};
ghost use Rattle.laws_translate.specs.TranslatedAs.{IsTranslatedAs};
ghost use Rattle.schema_print.specs.FragmentGroups.{AreGroupsOf};
ghost use Rattle.schema_print.specs.Printable.{IsPrintable};
ghost use Rattle.laws_print.specs.Printed.CedarForm.{cedar_form};
ghost use Rattle.laws_print.specs.Printed.Textual.{components_written, IsTextualFragment};
ghost use Rattle.laws_print.specs.Printable.Orderly.{IsOrderly};
ghost use Rattle.laws_print.specs.Printable.ReadAs.{IsReadAs, ResolveAlike};
ghost use Rattle.schema_build_checks.specs.Rows.{Never};
ghost use Rattle.schema_build_errors.specs.declared.schema_error.SchemaError.{SchemaError};
ghost use Rattle.schema_build_parts.specs.BuildFaults.{BuildFault};
ghost use Rattle.schema_build.specs.FaultsTold.{AreToldAlike, IsInOrder};
ghost use Rattle.schema_build.specs.Meaning.{FragmentMeaning};

use cedar_identifiers::RawName;
use laws_build::existing_meanings::fragments_have_a_fault_or_a_meaning;
use laws_print::printable_fragments::printable_fragments_read_back;
use laws_print::printed_fragments::printed_fragments_read_back;
use laws_translate::laws::trees_that_say_the_same;
use schema_build::{one_build_fault, one_fragment_meaning};
use schema_convert::laws::lawful_trees;
use schema_json::Fragment;
use schema_print::ToCedarSchema;

/// A tree has no fault of translation exactly where it can be translated: no name is reserved, none is declared twice
/// in its kind and namespace, and each block of an action is whole.
pub fn a_tree_is_translated_where_it_can_be()
    ensures { (tree : List (Annotated Namespace)) → translation_faults tree ≡ [] ↔ IsTranslatable tree }
{
    lawful_trees();
}

/// Of two trees that say the same, with a component in each name and a name in each declaration of actions, the other
/// has no fault where one has none, and then their fragments are the same, places aside.
pub fn what_is_said_decides()
    ensures { (tree other : List (Annotated Namespace)) (w : List WrittenItem) → AllZip SaysItem tree w
        → AllZip SaysItem other w → AllByRecursion IsWellNamed w → translation_faults tree ≡ []
        → (translation_faults other ≡ []) × (bare_fragment (translated tree) ≡ bare_fragment (translated other)) }
{
    trees_that_say_the_same();
}

/// The printed text of a fragment that a text can say has no fault, and its fragment is that one in the form that its
/// text has, places aside.
pub fn printed_fragments_say_the_same()
    ensures { (closing : Bool) (f : Fragments Raw as_written) (groups : List Group)
        → AreGroupsOf components_written f groups → IsTextualFragment f
        → (t : IsTranslatedAs (laid (schema_pieces closing groups)) (flat_map group_items groups))
        × (bare_fragment (translated t.reads.tree) ≡ bare_fragment (cedar_form f)) }
{
    printed_fragments_read_back();
}

/// What `to_cedarschema` writes of a printable fragment, whose maps rise by their keys and whose enums have a choice as
/// those of each fragment in memory do, has no fault of its syntax, no user fault and no fault of translation; its
/// fragment is that one in the form that its text has, places aside; and both resolve alike.
pub fn texts_of_printable_fragments_say_them()
    ensures { (f : Fragments Raw as_written) (table : ExtensionTable) → IsPrintable f table → IsOrderly f
        → IsReadAs (⟦<Fragment<RawName> as ToCedarSchema>⟧.schema_text f) table (cedar_form f)
        × ResolveAlike f (cedar_form f) table }
{
    printable_fragments_read_back();
}

/// A fragment has at most one meaning under a table.
pub fn a_fragment_has_one_meaning()
    ensures { (f : Fragments Raw as_written) (table : ExtensionTable) (m n : SchemaMeaning) → FragmentMeaning f table m
        → FragmentMeaning f table n → m ≡ n }
{
    one_fragment_meaning();
}

/// A fragment has a fault of building under a table, or it has none and means something: there is no third case. The
/// entries of the fragment are to be in the order of their names, as those of each fragment in memory are.
pub fn a_fragment_has_a_fault_or_a_meaning()
    ensures { (f : Fragments Raw as_written) (table : ExtensionTable) → IsInOrder f
        → ((error : SchemaError) × BuildFault f table error)
        ⊎ (Never (BuildFault f table) × ((m : SchemaMeaning) × FragmentMeaning f table m)) }
{
    fragments_have_a_fault_or_a_meaning();
}

/// All reports of the fault that keeps a fragment from being a schema are the same, with the same text, advice and
/// places. The entries of the fragment are to be in the order of their names, as those of each fragment in memory are.
pub fn faults_are_told_alike()
    ensures { (f : Fragments Raw as_written) (table : ExtensionTable) (error other : SchemaError) → IsInOrder f
        → BuildFault f table error → BuildFault f table other → AreToldAlike error other }
{
    one_build_fault();
}
