//! Laws of what the texts of printable fragments say. Each law is what its function ensures; the functions do
//! nothing but cite laws.
ghost use Rattle.std.specs.Prelude.{Bool, List};
ghost use Rattle.cedar_identifiers.specs.declared.raw_name.RawName.{RawName as Raw};
ghost use Rattle.cedar_names.specs.declared.extension_table.ExtensionTable.{ExtensionTable};
ghost use Rattle.schema_json.specs.declared.fragment.Fragment.{Fragment as Fragments};
ghost use Rattle.schema_json.specs.AsWritten.{as_written};
ghost use Rattle.laws_written.specs.PrintedDecls.{Group};
ghost use Rattle.schema_print.specs.FragmentGroups.{AreGroupsOf};
ghost use Rattle.schema_print.specs.Printable.{IsPrintable};
ghost use Rattle.schema_print.specs.PrintedFragments.{fragment_text};
ghost use Rattle.laws_print.specs.Printed.CedarForm.{cedar_form};
ghost use Rattle.laws_print.specs.Printed.Textual.{components_written, IsTextualFragment};
ghost use Rattle.laws_print.specs.Printable.Orderly.{IsOrderly};
ghost use Rattle.laws_print.specs.Printable.ReadAs.{IsReadAs, ResolveAlike};

use crate::printed_fragments::printed_fragments_read_back;
use crate::resolution::printable_fragments_resolve_alike;
use cedar_identifiers::RawName;
use schema_json::Fragment;
use schema_print::ToCedarSchema;
use schema_syntax_parser::laws::syntax_is_sentence;

/// A printable fragment whose maps rise by their keys and whose enums have a choice is one that its text can say.
pub fn printable_fragments_are_textual()
    ensures { (f : Fragments Raw as_written) (table : ExtensionTable) → IsPrintable f table → IsOrderly f
        → IsTextualFragment f }
{}

/// A printable fragment is written as groups of declarations.
pub fn printable_fragments_are_written_in_groups()
    ensures { (f : Fragments Raw as_written) (table : ExtensionTable) → IsPrintable f table
        → (groups : List Group) × AreGroupsOf components_written f groups }
{}

/// The text of a printable fragment whose maps rise by their keys and whose enums have a choice, in either layout, has
/// no fault, and is read as the fragment in the form that its text has, places aside. So is the text that
/// `to_cedarschema` writes. And that form resolves as the fragment does.
pub fn printable_fragments_read_back()
    ensures reads { (closing : Bool) (f : Fragments Raw as_written) (table : ExtensionTable) → IsPrintable f table
        → IsOrderly f → IsReadAs (fragment_text components_written closing f) table (cedar_form f) }
    ensures written { (f : Fragments Raw as_written) (table : ExtensionTable) → IsPrintable f table → IsOrderly f
        → IsReadAs (⟦<Fragment<RawName> as ToCedarSchema>⟧.schema_text f) table (cedar_form f) }
    ensures resolves { (f : Fragments Raw as_written) (table : ExtensionTable) → IsPrintable f table
        → ResolveAlike f (cedar_form f) table }
{
    printable_fragments_are_textual();
    printable_fragments_are_written_in_groups();
    printed_fragments_read_back();
    printable_fragments_resolve_alike();
    syntax_is_sentence();
}
