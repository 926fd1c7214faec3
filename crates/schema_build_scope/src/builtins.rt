ghost use Rattle.std.specs.Prelude.{◌≡◌, ◌∷◌, [], Some, IsSome, IfOk};
ghost use Rattle.cedar_identifiers.specs.Names.{components_of};
ghost use Rattle.cedar_names.specs.Meaning.{PlainType};
ghost use Rattle.schema_build_expand.specs.Scope.{builtin};
ghost use Rattle.schema_build_types.specs.Standing.{IsBuilt};
ghost use Rattle.schema_build_scope.specs.FragmentScope.{table_scope};

use cedar_data::{CloneIn, same_bytes};
use cedar_identifiers::{Id, InternalName, UnreservedId};
use cedar_names::ExtensionTable;
use schema_build_types::Type as BuiltType;
use std::alloc::{AllocError, Global};

// What a name stands for that is builtin under this table.
pub(crate) fn builtin_type(
    alloc: Global,
    table: &ExtensionTable,
    name: &InternalName,
) -> Result<BuiltType, AllocError>
    requires { IsSome (builtin (table_scope table.now) (components_of name.now)) }
    ensures { IfOk result (λ ty. (p : PlainType) × (builtin (table_scope table.now) (components_of name.now) ≡ Some p)
        × IsBuilt p ty) }
{
    match name.others.as_slice() {
        [] => word_type(alloc, table, &name.first),
        [word, ..] => word_type(alloc, table, word),
    }
}

// What a word stands for that is builtin under this table.
fn word_type(alloc: Global, _table: &ExtensionTable, word: &Id) -> Result<BuiltType, AllocError>
    requires { IsSome (builtin (table_scope _table.now) (word.now.text ∷ [])) }
    ensures { IfOk result (λ ty. (p : PlainType) × (builtin (table_scope _table.now) (word.now.text ∷ []) ≡ Some p)
        × IsBuilt p ty) }
{
    let text = word.as_str();
    if same_bytes(text, "Bool") {
        return Ok(BuiltType::AnyBool);
    }
    if same_bytes(text, "Long") {
        return Ok(BuiltType::Long);
    }
    if same_bytes(text, "String") {
        return Ok(BuiltType::String);
    }
    match UnreservedId::from_id(word.clone_in(alloc)?) {
        Some(name) => Ok(BuiltType::Extension { name }),
        None => unreachable!(),
    }
}
