//! A fragment has a fault of building or a meaning. Each law is what its function ensures; the functions do nothing but
//! cite laws below them.
ghost use Rattle.std.specs.Prelude.{◌⊎◌, Bool, List};
ghost use Rattle.std.specs.declared.cmp.Ordering.{Ordering};
ghost use Rattle.std.specs.Cmp.{IsTotalOrder};
ghost use Rattle.schema_build_expand.specs.Scope.{Scope};
ghost use Rattle.laws_build.specs.Existence.Complete.{IsComplete, AllExpand};
ghost use Rattle.cedar_identifiers.specs.declared.raw_name.RawName.{RawName as Raw};
ghost use Rattle.cedar_names.specs.Meaning.{SchemaMeaning};
ghost use Rattle.cedar_names.specs.declared.extension_table.ExtensionTable.{ExtensionTable as Table};
ghost use Rattle.schema_json.specs.declared.fragment.Fragment.{Fragment as Fragments};
ghost use Rattle.schema_build_errors.specs.declared.schema_error.SchemaError.{SchemaError as Error};
ghost use Rattle.schema_build_checks.specs.Rows.{Never};
ghost use Rattle.schema_build_parts.specs.BuildFaults.{BuildFault};
ghost use Rattle.schema_build.specs.FaultsTold.{IsInOrder};
ghost use Rattle.schema_build.specs.Meaning.{FragmentMeaning};
ghost use Rattle.laws_build.specs.Existence.Finite.{IsExact, LeadsWithin, IsListedBy};

use cedar_identifiers::{NameText, RawName};
use schema_build_expand::laws::types_stand_for_one;

/// What a test leads to, in steps that stay in a list, can be listed in any order that tells names apart.
pub fn what_is_reached_can_be_listed<A>()
    ensures { (edge : A → A → Bool) (targets : List A) (R : A → A → Ordering) → LeadsWithin edge targets
        → IsTotalOrder R → IsExact R → IsListedBy edge R }
{}

/// Where each reference has a target and no common type reaches itself, each type whose parts are meant stands for a
/// type of a meaning.
pub fn types_stand_for_something<N>()
    ensures { (s : Scope N) → IsComplete s → AllExpand s }
{}

/// A fragment in order that has no fault under a table has a meaning under it.
pub fn faultless_fragments_mean_something()
    ensures { (f : Fragments Raw ⟦<RawName as NameText>⟧) (table : Table) → IsInOrder f → Never (BuildFault f table)
        → (m : SchemaMeaning) × FragmentMeaning f table m }
{
    types_stand_for_one::<RawName>();
}

/// A fragment in order has a fault under a table, or it has none and has a meaning.
pub fn fragments_have_a_fault_or_a_meaning()
    ensures { (f : Fragments Raw ⟦<RawName as NameText>⟧) (table : Table) → IsInOrder f
        → ((e : Error) × BuildFault f table e)
        ⊎ (Never (BuildFault f table) × ((m : SchemaMeaning) × FragmentMeaning f table m)) }
{
    types_stand_for_one::<RawName>();
}
