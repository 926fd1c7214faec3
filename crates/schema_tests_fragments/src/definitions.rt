// Which names a fragment declares, and which are defined where it stands alone.

use cedar_data::Text;
use cedar_identifiers::{Eid, InternalName, Name, RawName, ReferenceType};
use cedar_names::{AllDefs, EntityUID, ExtensionTable};
use schema_convert::parse_cedar_schema_fragment;
use schema_json::{Fragment, Type, TypeVariant};
use schema_resolve::{Designate, ResolveError};
use schema_resolve_definitions::{all_definitions, single_fragment};
use std::alloc::Global;

const TEXT: &str =
    "entity Long; namespace N { type C = {}; action a; } namespace M { entity decimal; }";

// Names, each behind whether it is declared as a common type, declared as an entity type, defined as a common type and defined
// as an entity type. The answers were worked out by hand, from what a schema without a text of its own has: the builtin types,
// the extension types and the types of its actions.
const NAMES: &str = "\
-e-e Long
--c- __cedar::Long
--c- Bool
--c- __cedar::String
--c- decimal
--c- __cedar::decimal
-e-e M::decimal
---- M::Long
c-c- N::C
---- C
---e N::Action
---- M::Action
---- Action
---- __cedar::Action
";

// Is the name a common type where the first letter says so, and an entity type where the second does?
fn is_as(defs: &AllDefs, name: &InternalName, common: Option<char>, entity: Option<char>) -> bool {
    defs.is_defined_as_common(name) == (common == Some('c'))
        && defs.is_defined_as_entity(name) == (entity == Some('e'))
}

// Is what the line says so of its name?
fn agrees(alloc: Global, line: &str, declared: &AllDefs, defined: &AllDefs) -> bool {
    let (letters, name) = line.split_once(' ').unwrap_or(("", ""));
    let mut letters = letters.chars();
    match InternalName::from_normalized_str(alloc, name) {
        Ok(name) => {
            is_as(declared, &name, letters.next(), letters.next())
                && is_as(defined, &name, letters.next(), letters.next())
        }
        Err(_) => false,
    }
}

// Is the action `a` of this type there?
fn has_action(alloc: Global, defs: &AllDefs, ty: &str) -> bool {
    match (
        Name::from_normalized_str(alloc, ty),
        Text::from_str(alloc, "a"),
    ) {
        (Ok(ty), Ok(id)) => defs.is_defined_as_action(&EntityUID {
            ty,
            eid: Eid(id),
            loc: None,
        }),
        _ => false,
    }
}

// Is all so of what the fragment declares and of what is defined?
fn holds(alloc: Global, declared: &AllDefs, defined: &AllDefs) -> bool {
    has_action(alloc, declared, "N::Action")
        && has_action(alloc, defined, "N::Action")
        && !has_action(alloc, defined, "M::Action")
        && NAMES
            .lines()
            .all(|line| agrees(alloc, line, declared, defined))
}

// Is all so of the fragment?
fn holds_of(alloc: Global, fragment: &Fragment<RawName>, table: &ExtensionTable) -> bool {
    match (
        single_fragment(alloc, fragment),
        all_definitions(alloc, fragment, table),
    ) {
        (Ok(declared), Ok(defined)) => {
            holds(alloc, &declared, &defined)
                && is_designated(alloc, &defined, "N::C", Some(ReferenceType::Common))
                && is_designated(alloc, &defined, "Long", Some(ReferenceType::Entity))
                && is_designated(alloc, &defined, "M::Long", None)
        }
        _ => false,
    }
}

// A type that may be of either kind.
fn either(type_name: InternalName) -> Type<InternalName> {
    Type::Variant {
        ty: TypeVariant::EntityOrCommon { type_name },
        loc: None,
    }
}

// What the type refers to.
fn kind_of(ty: &Type<InternalName>) -> Option<ReferenceType> {
    match ty {
        Type::CommonTypeRef { .. } => Some(ReferenceType::Common),
        Type::Variant { ty, .. } => match ty {
            TypeVariant::Entity { .. } => Some(ReferenceType::Entity),
            _ => None,
        },
    }
}

// Is this what a type of either kind with this name is, where nothing says that it is neither?
fn is_designated(alloc: Global, defs: &AllDefs, name: &str, kind: Option<ReferenceType>) -> bool {
    let Ok(name) = InternalName::from_normalized_str(alloc, name) else {
        return false;
    };
    match either(name).resolve_entity_or_common_types(alloc, defs) {
        Ok(ty) => kind_of(&ty) == kind && kind.is_some(),
        Err(ResolveError::TypeNotDefined(_)) => kind.is_none(),
        Err(_) => false,
    }
}

// Is all so of the text?
fn holds_of_text(alloc: Global, text: &str) -> bool {
    let Ok(table) = ExtensionTable::all_available(alloc) else {
        return false;
    };
    match parse_cedar_schema_fragment(alloc, text, &table) {
        Ok((fragment, _)) => holds_of(alloc, &fragment, &table),
        Err(_) => false,
    }
}

#[test]
fn names_are_declared_and_defined(rt: HostRuntime) {
    assert!(rt; holds_of_text(rt.alloc(), TEXT));
}
