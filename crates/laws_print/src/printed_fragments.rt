//! Laws of what printed fragments say. Each law is what its function ensures; the functions do nothing but cite laws.
ghost use Rattle.std.specs.Prelude.{◌≡◌, Bool, List};
ghost use Rattle.std.specs.List.{AllByRecursion, flat_map};
ghost use Rattle.cedar_identifiers.specs.declared.raw_name.RawName.{RawName};
ghost use Rattle.schema_syntax_tokens.specs.Laid.{laid};
ghost use Rattle.schema_json.specs.declared.types.Type.{«Type»};
ghost use Rattle.schema_json.specs.declared.fragment.Fragment.{Fragment};
ghost use Rattle.schema_json.specs.AsWritten.{as_written};
ghost use Rattle.laws_written.specs.PrintedDecls.{Group, IsProperGroup, group_items, schema_pieces};
ghost use Rattle.schema_print_text.specs.PrintedTypes.{printed_type};
ghost use Rattle.schema_print.specs.FragmentGroups.{AreGroupsOf};
ghost use Rattle.schema_convert_plain.specs.Translation.{translated};
ghost use Rattle.laws_translate.specs.BareFragments.{bare_fragment};
ghost use Rattle.laws_translate.specs.Sayable.{IsSayable};
ghost use Rattle.laws_translate.specs.TranslatedAs.{IsTranslatedAs};
ghost use Rattle.laws_translate.specs.TypesSay.{TypeSays};
ghost use Rattle.laws_translate.specs.FragmentsSay.{FragmentSays};
ghost use Rattle.laws_print.specs.Printed.CedarForm.{cedar_type, cedar_form};
ghost use Rattle.laws_print.specs.Printed.Textual.{components_written, IsTextualType, IsTextualFragment};

use laws_translate::laws::{
    fragments_that_say_the_same, proper_groups_are_named, texts_that_read_back_are_translated,
};
use laws_written::laws::laid_schemas_read_back;

/// What is written of a type, the type says in the form that its text has.
pub fn types_are_printed_in_cedar_form()
    ensures { (s : «Type» RawName) → IsTextualType s → TypeSays (cedar_type s) (printed_type components_written s) }
{}

/// What is written of a fragment, the fragment says in the form that its text has.
pub fn fragments_are_printed_in_cedar_form()
    ensures { (f : Fragment RawName as_written) (groups : List Group) → AreGroupsOf components_written f groups
        → IsTextualFragment f → FragmentSays (cedar_form f) (flat_map group_items groups) }
{}

/// What is written of a fragment whose text can say it may be printed.
pub fn textual_fragments_may_be_printed()
    ensures { (f : Fragment RawName as_written) (groups : List Group) → AreGroupsOf components_written f groups
        → IsTextualFragment f → AllByRecursion IsProperGroup groups }
{}

/// What is written of a fragment whose text can say it can be translated.
pub fn textual_fragments_can_be_translated()
    ensures { (f : Fragment RawName as_written) (groups : List Group) → AreGroupsOf components_written f groups
        → IsTextualFragment f → IsSayable (flat_map group_items groups) }
{}

/// The text of a fragment that its text can say, in either layout, has no fault, and the fragment of the text is that
/// one in the form that its text has, places aside.
pub fn printed_fragments_read_back()
    ensures translated { (closing : Bool) (f : Fragment RawName as_written) (groups : List Group)
        → AreGroupsOf components_written f groups → IsTextualFragment f
        → IsTranslatedAs (laid (schema_pieces closing groups)) (flat_map group_items groups) }
    ensures same { (closing : Bool) (f : Fragment RawName as_written) (groups : List Group)
        → AreGroupsOf components_written f groups → IsTextualFragment f
        → (t : IsTranslatedAs (laid (schema_pieces closing groups)) (flat_map group_items groups))
        → bare_fragment (translated t.reads.tree) ≡ bare_fragment (cedar_form f) }
{
    laid_schemas_read_back();
    proper_groups_are_named();
    textual_fragments_may_be_printed();
    textual_fragments_can_be_translated();
    texts_that_read_back_are_translated();
    fragments_are_printed_in_cedar_form();
    fragments_that_say_the_same();
}
