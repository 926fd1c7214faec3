ghost use Rattle.std.specs.Prelude.{◌≡◌, ◌++◌, false, [], ◌∷◌};
ghost use Rattle.std.specs.List.{list_any};
ghost use Rattle.cedar_identifiers.specs.Names.{components_of};
ghost use Rattle.cedar_names.specs.declared.extension_table.ExtensionTable.{ExtensionTable};
ghost use Rattle.schema_resolve_definitions.specs.Declarations.{declared};
ghost use Rattle.schema_resolve_definitions.specs.Defined.{defined, builtins, is_hidden};
ghost use Rattle.schema_resolve_definitions.specs.Tests.{tests_of};
ghost use Rattle.schema_resolve_lookup.specs.Sought.{name_sought};

use crate::builtins_in::names_builtin;
use crate::declared_in::{declares_common, declares_entity, is_type_of_action};
use crate::namespaces::Searched;
use crate::sought::{Sought, as_written, behind};
use cedar_identifiers::{Id, InternalName, RawName};
use cedar_names::ExtensionTable;
use schema_json::Fragment;

/// Whether a common type of this name is defined where the fragment stands alone.
pub fn is_common(fragment: &Fragment<RawName>, table: &ExtensionTable, name: &InternalName) -> bool
    ensures { result ≡ (tests_of (defined fragment.now table.now)).is_common (components_of name.now) }
{
    let searched = Searched::new(fragment);
    is_common_sought(&searched, table, true, as_written(name))
}

/// Whether a common type with this last word is defined behind the namespace.
pub fn is_common_behind(
    fragment: &Fragment<RawName>,
    table: &ExtensionTable,
    namespace: &InternalName,
    last: &Id,
) -> bool
    ensures { result ≡ (tests_of (defined fragment.now table.now)).is_common (components_of namespace.now
        ++ last.now.text ∷ []) }
{
    let searched = Searched::new(fragment);
    is_common_sought(&searched, table, true, behind(namespace, last))
}

// Whether a common type of this name is defined. Where no name of a builtin type may be hidden, that is not looked up.
pub(crate) fn is_common_sought(
    searched: &Searched<'_>,
    table: &ExtensionTable,
    may_hide: bool,
    sought: Sought<'_>,
) -> bool
    requires { may_hide ≡ false → list_any (is_hidden (tests_of (declared searched.now.fragment.now)))
        (builtins table.now) ≡ false }
    ensures { result ≡ (tests_of (defined searched.now.fragment.now table.now)).is_common (name_sought sought.entry) }
{
    declares_common(searched, sought) || names_builtin(searched, table, may_hide, sought)
}

/// Whether an entity type of this name is defined where the fragment stands alone, whatever the table is.
pub fn is_entity(fragment: &Fragment<RawName>, name: &InternalName) -> bool
    ensures { (table : ExtensionTable)
        → result ≡ (tests_of (defined fragment.now table)).is_entity (components_of name.now) }
{
    let searched = Searched::new(fragment);
    is_entity_sought(&searched, as_written(name))
}

/// Whether an entity type with this last word is defined behind the namespace, whatever the table is.
pub fn is_entity_behind(fragment: &Fragment<RawName>, namespace: &InternalName, last: &Id) -> bool
    ensures { (table : ExtensionTable)
        → result ≡ (tests_of (defined fragment.now table)).is_entity (components_of namespace.now ++ last.now.text
        ∷ []) }
{
    let searched = Searched::new(fragment);
    is_entity_sought(&searched, behind(namespace, last))
}

// Whether an entity type of this name is defined.
pub(crate) fn is_entity_sought(searched: &Searched<'_>, sought: Sought<'_>) -> bool
    ensures { (table : ExtensionTable) → result ≡ (tests_of (defined searched.now.fragment.now table)).is_entity
        (name_sought sought.entry) }
{
    declares_entity(searched, sought) || is_type_of_action(searched, sought)
}
