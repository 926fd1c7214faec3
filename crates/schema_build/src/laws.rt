//! Laws of what fragments mean. Each law is what its function ensures; the functions do nothing but cite laws below
//! them.
ghost use Rattle.std.specs.Prelude.{◌≡◌};
ghost use Rattle.cedar_names.specs.Meaning.{SchemaMeaning};
ghost use Rattle.cedar_names.specs.declared.extension_table.ExtensionTable.{ExtensionTable as Table};
ghost use Rattle.cedar_identifiers.specs.declared.raw_name.RawName.{RawName as Raw};
ghost use Rattle.schema_json.specs.declared.fragment.Fragment.{Fragment as Fragments};
ghost use Rattle.schema_build_errors.specs.declared.schema_error.SchemaError.{SchemaError as Error};
ghost use Rattle.schema_build_parts.specs.BuildFaults.{BuildFault};
ghost use Rattle.schema_build.specs.FaultsTold.{AreToldAlike, IsInOrder};
ghost use Rattle.schema_build.specs.Meaning.{FragmentMeaning};

use cedar_identifiers::{NameText, RawName};
use schema_build_expand::laws::types_stand_for_one;

/// A fragment has at most one meaning under a table.
pub fn one_fragment_meaning()
    ensures { (f : Fragments Raw ⟦<RawName as NameText>⟧) (table : Table) (m n : SchemaMeaning)
        → FragmentMeaning f table m → FragmentMeaning f table n → m ≡ n }
{
    types_stand_for_one::<RawName>();
}

/// All reports of the fault of a fragment under a table are the same, with the same text, advice and places. The
/// entries of the fragment are to be in the order of their names.
pub fn one_build_fault()
    ensures { (f : Fragments Raw ⟦<RawName as NameText>⟧) (table : Table) (error other : Error) → IsInOrder f
        → BuildFault f table error → BuildFault f table other → AreToldAlike error other }
{}
