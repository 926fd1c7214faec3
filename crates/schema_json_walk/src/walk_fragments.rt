ghost use Rattle.std.specs.Prelude.{OnOk, IfErr};
ghost use Rattle.std.specs.List.{FoldsTo};
ghost use Rattle.schema_json_walk.specs.Visits.{StopsAmong, takes_placed, refuses_placed};
ghost use Rattle.schema_json_walk.specs.Walk.{itself, each_value, of_common, of_entity, of_action, namespace_parts};
ghost use Rattle.schema_json_walk.specs.Walk.{fragment_parts};

use crate::visitor::Visitor;
use crate::walk_items::{walk_action, walk_common, walk_entity};
use cedar_data::Text;
use cedar_identifiers::{Name, NameText, UnreservedId};
use schema_json::{
    ActionType, CommonType, CommonTypeId, EntityType, Fragment, NamespaceDefinition,
};

// Tells the visitor each part of the common types, in order.
fn walk_commons<'a, N, V: Visitor<N>>(
    visitor: &mut V,
    ns: &'a Option<Name>,
    entries: &'a [(CommonTypeId, CommonType<N>)],
) -> Result<(), V::Refusal>
    ensures taken { OnOk result (FoldsTo (V.takes ns.now) visitor.old
        (each_value (of_common itself) entries.now) visitor.new) }
    ensures refused { IfErr result (StopsAmong (V.takes ns.now) (V.refuses ns.now) visitor.old
        (each_value (of_common itself) entries.now)) }
{
    for (_, common) in entries {
        walk_common(visitor, ns, common)?;
    }
    Ok(())
}

// Tells the visitor each part of the entity types, in order.
fn walk_entities<'a, N, V: Visitor<N>>(
    visitor: &mut V,
    ns: &'a Option<Name>,
    entries: &'a [(UnreservedId, EntityType<N>)],
) -> Result<(), V::Refusal>
    ensures taken { OnOk result (FoldsTo (V.takes ns.now) visitor.old
        (each_value (of_entity itself) entries.now) visitor.new) }
    ensures refused { IfErr result (StopsAmong (V.takes ns.now) (V.refuses ns.now) visitor.old
        (each_value (of_entity itself) entries.now)) }
{
    for (_, entity) in entries {
        walk_entity(visitor, ns, entity)?;
    }
    Ok(())
}

// Tells the visitor each part of the actions, in order.
fn walk_actions<'a, N: NameText, V: Visitor<N>>(
    visitor: &mut V,
    ns: &'a Option<Name>,
    entries: &'a [(Text, ActionType<N>)],
) -> Result<(), V::Refusal>
    ensures taken { OnOk result (FoldsTo (V.takes ns.now) visitor.old
        (each_value (of_action itself) entries.now) visitor.new) }
    ensures refused { IfErr result (StopsAmong (V.takes ns.now) (V.refuses ns.now) visitor.old
        (each_value (of_action itself) entries.now)) }
{
    for (_, action) in entries {
        walk_action(visitor, ns, action)?;
    }
    Ok(())
}

/// Tells the visitor each part of a namespace: of its common types, its entity types and its actions, by their names.
pub fn walk_namespace<'a, N: NameText, V: Visitor<N>>(
    visitor: &mut V,
    ns: &'a Option<Name>,
    definition: &'a NamespaceDefinition<N>,
) -> Result<(), V::Refusal>
    ensures taken { OnOk result (FoldsTo (V.takes ns.now) visitor.old (namespace_parts definition.now) visitor.new) }
    ensures refused { IfErr result (StopsAmong (V.takes ns.now) (V.refuses ns.now) visitor.old
        (namespace_parts definition.now)) }
{
    walk_commons(visitor, ns, definition.common_types.as_slice())?;
    walk_entities(visitor, ns, definition.entity_types.as_slice())?;
    walk_actions(visitor, ns, definition.actions.as_slice())
}

/// Tells the visitor each part of the fragment, with the namespace that it stands in: the namespaces by their names,
/// the empty one first.
pub fn walk_fragment<'a, N: NameText, V: Visitor<N>>(
    visitor: &mut V,
    fragment: &'a Fragment<N>,
) -> Result<(), V::Refusal>
    ensures taken { OnOk result (FoldsTo (takes_placed V.takes) visitor.old (fragment_parts fragment.now) visitor.new) }
    ensures refused { IfErr result (StopsAmong (takes_placed V.takes) (refuses_placed V.refuses) visitor.old
        (fragment_parts fragment.now)) }
{
    for (ns, definition) in fragment.0.as_slice() {
        walk_namespace(visitor, ns, definition)?;
    }
    Ok(())
}
