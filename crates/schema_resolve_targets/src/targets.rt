ghost use Rattle.std.specs.Prelude.{◌≡◌, find};
ghost use Rattle.std.specs.Option.{option_copied};
ghost use Rattle.cedar_identifiers.specs.Names.{components_of};
ghost use Rattle.schema_resolve_definitions.specs.Tests.{tests_of};
ghost use Rattle.schema_resolve_targets.specs.Targets.{is_defined, is_action};

use cedar_data::{NonEmpty, Text};
use cedar_identifiers::{InternalName, ReferenceType};
use cedar_names::AllDefs;

// Whether the name is defined in the kind that is asked for.
fn is_defined(defs: &AllDefs, kind: ReferenceType, name: &InternalName) -> bool
    ensures { result ≡ is_defined (tests_of defs.now) kind (components_of name.now) }
{
    match kind {
        ReferenceType::Common => defs.is_defined_as_common(name),
        ReferenceType::Entity => defs.is_defined_as_entity(name),
        ReferenceType::CommonOrEntity => {
            defs.is_defined_as_common(name) || defs.is_defined_as_entity(name)
        }
    }
}

/// The first of the names that is defined in the kind that is asked for.
pub fn first_defined<'a>(
    defs: &AllDefs,
    kind: ReferenceType,
    names: &'a NonEmpty<InternalName>,
) -> Option<&'a InternalName>
    ensures { option_copied result ≡ find (λ name. is_defined (tests_of defs.now) kind (components_of name)) names.now }
{
    for name in names.iter() {
        if is_defined(defs, kind, name) {
            return Some(name);
        }
    }
    None
}

// Whether an action with this type and id is defined.
fn is_action(defs: &AllDefs, id: &Text, ty: &InternalName) -> bool
    ensures { result ≡ is_action (tests_of defs.now) id.now ty.now }
{
    !ty.has_cedar() && defs.is_defined_as_action_named(ty, id)
}

/// The first of the types with which the action is defined.
pub fn first_action<'a>(
    defs: &AllDefs,
    id: &Text,
    types: &'a NonEmpty<InternalName>,
) -> Option<&'a InternalName>
    ensures { option_copied result ≡ find (is_action (tests_of defs.now) id.now) types.now }
{
    for ty in types.iter() {
        if is_action(defs, id, ty) {
            return Some(ty);
        }
    }
    None
}
