ghost use Rattle.std.specs.Prelude.{◌≡◌};
ghost use Rattle.schema_resolve_definitions.specs.Declarations.{name_of};
ghost use Rattle.schema_resolve_definitions.specs.Defined.{defined};
ghost use Rattle.schema_resolve_definitions.specs.Tests.{tests_of};
ghost use Rattle.schema_print.specs.PrintableTests.{agrees, agrees_in, passes_behind};

use cedar_identifiers::{InternalName, Name, RawName, ReferenceType};
use cedar_names::ExtensionTable;
use schema_json::Fragment;
use schema_resolve_lookup::{is_common, is_common_behind, is_entity, is_entity_behind};
use schema_resolve_targets::tried::is_unqualified;

// Whether a reference in the namespace means what its name means where it may be either kind of type.
pub(crate) fn is_meant_either_way(
    fragment: &Fragment<RawName>,
    table: &ExtensionTable,
    ns: &Option<Name>,
    kind: ReferenceType,
    name: &InternalName,
) -> bool
    ensures { result ≡ agrees_in (tests_of (defined fragment.now table.now)) (name_of ns.now) kind name.now }
{
    let own_common = is_own_common(fragment, table, ns, name);
    let own_entity = is_own_entity(fragment, table, ns, name);
    let common = is_common(fragment, table, name);
    let entity = is_entity(fragment, name);
    agrees(kind, own_common, own_entity, common, entity)
}

// Whether a reference means the same either way, by what its name is behind the namespace and as it is written.
fn agrees(
    kind: ReferenceType,
    own_common: bool,
    own_entity: bool,
    common: bool,
    entity: bool,
) -> bool
    ensures { result ≡ agrees kind own_common own_entity common entity }
{
    match kind {
        ReferenceType::Common => own_common || (!own_entity && (common || !entity)),
        ReferenceType::Entity => !own_common && (own_entity || !common),
        ReferenceType::CommonOrEntity => true,
    }
}

// Whether an unqualified name is a common type behind its namespace.
fn is_own_common(
    fragment: &Fragment<RawName>,
    table: &ExtensionTable,
    ns: &Option<Name>,
    name: &InternalName,
) -> bool
    ensures { result ≡ passes_behind (tests_of (defined fragment.now table.now)).is_common (name_of ns.now) name.now }
{
    match ns {
        Some(ns) => {
            is_unqualified(name) && is_common_behind(fragment, table, &ns.name, &name.first)
        }
        None => false,
    }
}

// Whether an unqualified name is an entity type behind its namespace.
fn is_own_entity(
    fragment: &Fragment<RawName>,
    table: &ExtensionTable,
    ns: &Option<Name>,
    name: &InternalName,
) -> bool
    ensures { result ≡ passes_behind (tests_of (defined fragment.now table.now)).is_entity (name_of ns.now) name.now }
{
    match ns {
        Some(ns) => is_unqualified(name) && is_entity_behind(fragment, &ns.name, &name.first),
        None => false,
    }
}
