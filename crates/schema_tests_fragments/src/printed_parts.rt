// Parts of a fragment by themselves, at an indentation. The wanted texts were made by the second program that the table is from.

use cedar_identifiers::RawName;
use cedar_names::ExtensionTable;
use schema_convert::parse_cedar_schema_fragment;
use schema_json::{
    ActionType, CommonType, EntityType, EntityTypeKind, Fragment, NamespaceDefinition, Type,
    TypeVariant,
};
use schema_print::{CedarText, json_schema_to_cedar_schema_str};
use std::alloc::Global;

// A fragment of one namespace with a common type, an entity type and an action.
const SCHEMA: &str =
    "type T = { x: Long }; entity A in B = { x: Long } tags Set<B>; action a in b appliesTo { principal: A, resource: A, context: { x: A } };";

// The text of its items at the indentation 2.
const ITEMS: &str =
    "  type T = {\n    x: Long,\n  };\n\n  entity A in [B] = {\n    x: Long,\n  } tags Set<B>;\n\n  action \"a\" in [Action::\"b\"] appliesTo {\n    principal: [A],\n    resource: [A],\n    context: {\n      x: A,\n    },\n  };\n";

// Is the part printed so at the indentation?
fn prints<T: CedarText>(alloc: Global, part: &T, base: usize, wanted: &str) -> bool {
    match part.indented_text(alloc, base) {
        Ok(text) => text.as_str() == wanted,
        Err(_) => false,
    }
}

// Is the part printed so at no indentation?
fn prints_plainly<T: CedarText>(alloc: Global, part: &T, wanted: &str) -> bool {
    match part.text(alloc) {
        Ok(text) => text.as_str() == wanted,
        Err(_) => false,
    }
}

// Is the record of the common type printed?
fn record_is_printed(alloc: Global, common: &CommonType<RawName>) -> bool {
    match &common.ty {
        Type::Variant {
            ty: TypeVariant::Record(record),
            ..
        } => prints(alloc, record, 4, "{\n      x: Long,\n    }"),
        _ => false,
    }
}

// Is what stands behind the name of the entity type printed, and its shape?
fn standard_is_printed(alloc: Global, entity: &EntityType<RawName>) -> bool {
    match &entity.kind {
        EntityTypeKind::Standard(standard) => {
            let standard = standard.get();
            prints(alloc, &standard.shape, 0, "{\n  x: Long,\n}")
                && prints(alloc, standard, 0, " in [B] = {\n  x: Long,\n} tags Set<B>")
        }
        EntityTypeKind::Enum { .. } => false,
    }
}

// Are the parts of the namespace printed?
fn parts_are_printed(alloc: Global, namespace: &NamespaceDefinition<RawName>) -> bool {
    match (
        namespace.common_types.as_slice(),
        namespace.entity_types.as_slice(),
        namespace.actions.as_slice(),
    ) {
        ([(_, common)], [(_, entity)], [(_, action)]) => {
            prints(alloc, &common.ty, 4, "{\n      x: Long,\n    }")
                && record_is_printed(alloc, common)
                && prints(
                    alloc,
                    entity,
                    4,
                    " in [B] = {\n      x: Long,\n    } tags Set<B>",
                )
                && standard_is_printed(alloc, entity)
                && action_is_printed(alloc, action)
        }
        _ => false,
    }
}

// Is what stands behind the id of the action printed?
fn action_is_printed(alloc: Global, action: &ActionType<RawName>) -> bool {
    prints_plainly(
        alloc,
        action,
        " in [Action::\"b\"] appliesTo {\n  principal: [A],\n  resource: [A],\n  context: {\n    x: A,\n  },\n}",
    )
}

// Is the whole printed by each call?
fn whole_is_printed(alloc: Global, fragment: &Fragment<RawName>, wanted: &str) -> bool {
    prints(alloc, fragment, 7, wanted)
        && match json_schema_to_cedar_schema_str(alloc, fragment) {
            Ok(text) => text.as_str() == wanted,
            Err(_) => false,
        }
}

// The fragment of the schema, where there is memory.
fn fragment(alloc: Global) -> Option<Fragment<RawName>> {
    let table = ExtensionTable::all_available(alloc).ok()?;
    match parse_cedar_schema_fragment(alloc, SCHEMA, &table) {
        Ok((fragment, _)) => Some(fragment),
        Err(_) => None,
    }
}

// Are the parts of the fragment printed?
fn namespace_is_printed(alloc: Global) -> bool {
    let Some(fragment) = fragment(alloc) else {
        return false;
    };
    match fragment.0.as_slice() {
        [(_, namespace)] => {
            prints(alloc, namespace, 2, ITEMS) && parts_are_printed(alloc, namespace)
        }
        _ => false,
    }
}

#[test]
fn parts_of_a_fragment_are_printed(rt: HostRuntime) {
    assert!(rt; namespace_is_printed(rt.alloc()));
}
