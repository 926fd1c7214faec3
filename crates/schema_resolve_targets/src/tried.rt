ghost use Rattle.std.specs.Prelude.{◌≡◌, true, false, ◌∷◌, ◌++◌, [], find, IfSome};
ghost use Rattle.std.specs.Option.{option_copied, option_map};
ghost use Rattle.cedar_identifiers.specs.Candidates.{candidates, is_unqualified};
ghost use Rattle.cedar_identifiers.specs.Names.{components_of};
ghost use Rattle.schema_resolve_definitions.specs.Tests.{tests_of};
ghost use Rattle.schema_resolve_targets.specs.Targets.{is_defined, is_action};
ghost use Rattle.schema_resolve_targets.specs.Tried.{kind_told, kind_found, own_kind, is_action_there, is_own_action};
ghost use Rattle.schema_resolve_targets.specs.Tried.{candidate};

use cedar_data::Text;
use cedar_identifiers::{Id, InternalName, ReferenceType, is_cedar};
use schema_resolve_lookup::FragmentDefs;

/// Which candidate of a name is the first that is defined, and whether it is a common type.
#[derive(Clone, Copy)]
pub struct Found {
    /// Whether it is the one behind the namespace.
    pub is_own: bool,
    /// Whether it is a common type.
    pub is_common: bool,
}

/// The first candidate of the name in the namespace that is defined in the kind that is asked for.
pub fn find_type(
    defs: &FragmentDefs<'_>,
    ns: Option<&InternalName>,
    kind: ReferenceType,
    name: &InternalName,
) -> Option<Found>
    ensures first { option_map (λ found. candidate (option_copied ns.entry) name.now found.is_own) result
        ≡ find (λ n. is_defined (tests_of defs.now) kind (components_of n))
        (candidates (option_copied ns.entry) name.now) }
    ensures kind { IfSome result (λ found. kind ≡ ReferenceType.CommonOrEntity
        → found.is_common ≡ (tests_of defs.now).is_common
        (components_of (candidate (option_copied ns.entry) name.now found.is_own))) }
{
    match own_kind(defs, ns, kind, name) {
        Some(is_common) => Some(Found {
            is_own: true,
            is_common,
        }),
        None => match kind_of(defs, kind, name) {
            Some(is_common) => Some(Found {
                is_own: false,
                is_common,
            }),
            None => None,
        },
    }
}

/// What the name is, where it is defined in the kind that is asked for: whether it is a common type.
pub fn kind_of(defs: &FragmentDefs<'_>, kind: ReferenceType, name: &InternalName) -> Option<bool>
    ensures { result ≡ kind_found (tests_of defs.now) kind (components_of name.now) }
{
    match kind {
        ReferenceType::Common => told(defs.is_defined_as_common(name), false),
        ReferenceType::Entity => told(false, defs.is_defined_as_entity(name)),
        ReferenceType::CommonOrEntity => {
            let is_common = defs.is_defined_as_common(name);
            told(is_common, !is_common && defs.is_defined_as_entity(name))
        }
    }
}

/// A common type, or else an entity type, or nothing.
pub fn told(is_common: bool, is_entity: bool) -> Option<bool>
    ensures { result ≡ kind_told is_common is_entity }
{
    if is_common {
        Some(true)
    } else if is_entity {
        Some(false)
    } else {
        None
    }
}

// What the name with this last word behind a namespace is, which is not made.
fn kind_behind(
    defs: &FragmentDefs<'_>,
    kind: ReferenceType,
    ns: &InternalName,
    last: &Id,
) -> Option<bool>
    ensures { result ≡ kind_found (tests_of defs.now) kind (components_of ns.now ++ last.now.text ∷ []) }
{
    match kind {
        ReferenceType::Common => told(defs.is_defined_as_common_behind(ns, last), false),
        ReferenceType::Entity => told(false, defs.is_defined_as_entity_behind(ns, last)),
        ReferenceType::CommonOrEntity => {
            let is_common = defs.is_defined_as_common_behind(ns, last);
            told(
                is_common,
                !is_common && defs.is_defined_as_entity_behind(ns, last),
            )
        }
    }
}

/// What an unqualified name is behind its namespace, where it is defined there in the kind that is asked for: whether
/// it is a common type. No name is built.
pub fn own_kind(
    defs: &FragmentDefs<'_>,
    ns: Option<&InternalName>,
    kind: ReferenceType,
    name: &InternalName,
) -> Option<bool>
    ensures { result ≡ own_kind (tests_of defs.now) (option_copied ns.entry) kind name.now }
{
    match ns {
        Some(ns) => {
            if is_unqualified(name) {
                kind_behind(defs, kind, ns, &name.first)
            } else {
                None
            }
        }
        None => None,
    }
}

/// Whether the name has no namespace.
pub fn is_unqualified(name: &InternalName) -> bool
    ensures { result ≡ is_unqualified name.now }
{
    name.others.as_slice().is_empty()
}

/// The first candidate of the type in the namespace with which an action with this id is defined: whether it is the one
/// behind the namespace.
pub fn find_action(
    defs: &FragmentDefs<'_>,
    ns: Option<&InternalName>,
    id: &Text,
    ty: &InternalName,
) -> Option<bool>
    ensures { option_map (candidate (option_copied ns.entry) ty.now) result
        ≡ find (is_action (tests_of defs.now) id.now) (candidates (option_copied ns.entry) ty.now) }
{
    if is_own_action(defs, id, ns, ty) {
        return Some(true);
    }
    if is_action(defs, id, ty) {
        return Some(false);
    }
    None
}

// Whether an action with this type and id is defined.
fn is_action(defs: &FragmentDefs<'_>, id: &Text, ty: &InternalName) -> bool
    ensures { result ≡ is_action (tests_of defs.now) id.now ty.now }
{
    !ty.has_cedar() && defs.is_defined_as_action_named(ty, id)
}

// Whether the action with this id is defined whose type is the unqualified name behind its namespace.
fn is_own_action(
    defs: &FragmentDefs<'_>,
    id: &Text,
    ns: Option<&InternalName>,
    ty: &InternalName,
) -> bool
    ensures { result ≡ is_own_action (tests_of defs.now) id.now (option_copied ns.entry) ty.now }
{
    match ns {
        Some(ns) => is_unqualified(ty) && is_action_behind(defs, id, ns, &ty.first),
        None => false,
    }
}

// Whether the action with this id is defined whose type has this last word behind a namespace.
fn is_action_behind(defs: &FragmentDefs<'_>, id: &Text, ns: &InternalName, last: &Id) -> bool
    ensures { result ≡ is_action_there (tests_of defs.now) id.now (components_of ns.now ++ last.now.text ∷ []) }
{
    !(ns.has_cedar() || is_cedar(last.as_str())) && defs.is_defined_as_action_behind(ns, last, id)
}
