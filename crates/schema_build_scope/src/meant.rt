ghost use Rattle.std.specs.Prelude.{◌≡◌, Bool, Some, IsSome};
ghost use Rattle.std.specs.Option.{option_copied, option_map};
ghost use Rattle.cedar_identifiers.specs.Names.{components_of};
ghost use Rattle.schema_resolve_definitions.specs.Tests.{tests_of};
ghost use Rattle.schema_resolve_targets.specs.Meanings.{means};
ghost use Rattle.schema_resolve_targets.specs.Tried.{kind_found};
ghost use Rattle.schema_build_scope.specs.Meant.{meant_candidate};

use cedar_identifiers::{InternalName, RawName, ReferenceType};
use schema_resolve_lookup::FragmentDefs;
use schema_resolve_targets::tried::{kind_of, own_kind};

// Which candidate a reference means: the one behind its namespace or the name as it is written, and whether that is a
// common type.
#[derive(Clone, Copy)]
pub(crate) struct Meant {
    pub(crate) is_own: bool,
    pub(crate) is_common: bool,
}

// What the reference means in the namespace. No name is built.
pub(crate) fn find_meant(
    defs: &FragmentDefs<'_>,
    ns: Option<&InternalName>,
    kind: ReferenceType,
    name: &RawName,
) -> Option<Meant>
    ensures { option_map (meant_candidate (option_copied ns.entry) name.now.name) result
        ≡ means (tests_of defs.now) (option_copied ns.entry) kind name.now }
{
    match own_kind(defs, ns, kind, &name.name) {
        Some(is_common) => Some(Meant {
            is_own: true,
            is_common,
        }),
        None => match kind_of(defs, kind, &name.name) {
            Some(is_common) => Some(Meant {
                is_own: false,
                is_common,
            }),
            None => None,
        },
    }
}

// What the reference means that means something. Where only one thing is left that it may mean, that is not looked up.
pub(crate) fn find_known(
    defs: &FragmentDefs<'_>,
    ns: Option<&InternalName>,
    kind: ReferenceType,
    name: &RawName,
) -> Meant
    requires { IsSome (means (tests_of defs.now) (option_copied ns) kind name.now) }
    ensures { option_map (meant_candidate (option_copied ns.entry) name.now.name) (Some result)
        ≡ means (tests_of defs.now) (option_copied ns.entry) kind name.now }
{
    match own_kind(defs, ns, kind, &name.name) {
        Some(is_common) => Meant {
            is_own: true,
            is_common,
        },
        None => Meant {
            is_own: false,
            is_common: is_known_common(defs, kind, &name.name),
        },
    }
}

// Whether the name, which is defined in the kind that is asked for, is a common type.
fn is_known_common(defs: &FragmentDefs<'_>, kind: ReferenceType, name: &InternalName) -> bool
    ensures { (b : Bool) → kind_found (tests_of defs.now) kind (components_of name.now) ≡ Some b → result ≡ b }
{
    match kind {
        ReferenceType::Common => true,
        ReferenceType::Entity => false,
        ReferenceType::CommonOrEntity => defs.is_defined_as_common(name),
    }
}
