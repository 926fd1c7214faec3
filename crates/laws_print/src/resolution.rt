//! Laws of what printed fragments resolve to. Each law is what its function ensures; the functions do nothing.
ghost use Rattle.std.specs.Prelude.{◌≡◌, ◌↔◌, []};
ghost use Rattle.cedar_identifiers.specs.declared.raw_name.RawName.{RawName};
ghost use Rattle.cedar_names.specs.declared.extension_table.ExtensionTable.{ExtensionTable};
ghost use Rattle.schema_json.specs.declared.fragment.Fragment.{Fragment};
ghost use Rattle.schema_json.specs.AsWritten.{as_written};
ghost use Rattle.schema_resolve.specs.Resolved.{resolved};
ghost use Rattle.schema_resolve_targets.specs.Untargeted.{undefined};
ghost use Rattle.schema_resolve_definitions.specs.Defined.{defined};
ghost use Rattle.schema_resolve_definitions.specs.Tests.{tests_of};
ghost use Rattle.schema_print.specs.Printable.{IsPrintable};
ghost use Rattle.laws_print.specs.Printed.CedarForm.{cedar_form};
ghost use Rattle.laws_print.specs.Resolving.Alike.{AreAlike, as_resolved};

/// The form that the text of a fragment has defines what the fragment defines, whatever the table is. Where the
/// fragment is printable, each reference of the one means something exactly where each of the other does, and then both
/// resolve alike.
pub fn printable_fragments_resolve_alike()
    ensures same_defined { (f : Fragment RawName as_written) (table : ExtensionTable)
        → defined f table ≡ defined (cedar_form f) table }
    ensures found { (f : Fragment RawName as_written) (table : ExtensionTable) → IsPrintable f table
        → (undefined (tests_of (defined f table)) f ≡ [])
        ↔ (undefined (tests_of (defined (cedar_form f) table)) (cedar_form f) ≡ []) }
    ensures alike { (f : Fragment RawName as_written) (table : ExtensionTable)
        → IsPrintable f table → undefined (tests_of (defined f table)) f ≡ []
        → AreAlike {H = as_resolved} (resolved (tests_of (defined f table)) f)
        (resolved (tests_of (defined (cedar_form f) table)) (cedar_form f)) }
{}
