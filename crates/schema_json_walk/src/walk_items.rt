ghost use Rattle.std.specs.Prelude.{[], OnOk, IfErr};
ghost use Rattle.std.specs.List.{FoldsTo};
ghost use Rattle.std.specs.Option.{option_map_or};
ghost use Rattle.schema_json_walk.specs.Parts.{action_attributes};
ghost use Rattle.schema_json_walk.specs.Visits.{StopsAmong};
ghost use Rattle.schema_json_walk.specs.Walk.{itself, of_type, of_context, of_common, of_parents, of_principals};
ghost use Rattle.schema_json_walk.specs.Walk.{of_resources, of_standard, of_kind, of_entity, of_apply, of_uids};
ghost use Rattle.schema_json_walk.specs.Walk.{of_relations, of_action_parts, of_action};

use crate::bare::{is_bare_action, is_bare_entity};
use crate::lent_part::LentPart;
use crate::visitor::{Visitor, meet, meet_where};
use crate::walk_types::{walk_type, walk_variant};
use cedar_data::{Boxed, List, Set, Text};
use cedar_identifiers::{Name, NameText};
use schema_json::{
    ActionEntityUID, ActionType, ApplySpec, AttributesOrContext, CommonType, EntityType,
    EntityTypeKind, StandardEntityType, Type,
};

/// Tells the visitor each part of a context, of which a reference to a common type is told apart.
pub fn walk_context<'a, N, V: Visitor<N>>(
    visitor: &mut V,
    ns: &'a Option<Name>,
    context: &'a AttributesOrContext<N>,
) -> Result<(), V::Refusal>
    ensures taken { OnOk result (FoldsTo (V.takes ns.now) visitor.old (of_context itself context.now) visitor.new) }
    ensures refused { IfErr result (StopsAmong (V.takes ns.now) (V.refuses ns.now) visitor.old
        (of_context itself context.now)) }
{
    match &context.0 {
        Type::Variant { ty, .. } => walk_variant(visitor, ns, ty),
        Type::CommonTypeRef { type_name, .. } => {
            let name = type_name;
            meet(visitor, ns, LentPart::ContextReference { name })
        }
    }
}

/// Tells the visitor each part of a declared common type.
pub fn walk_common<'a, N, V: Visitor<N>>(
    visitor: &mut V,
    ns: &'a Option<Name>,
    common: &'a CommonType<N>,
) -> Result<(), V::Refusal>
    ensures taken { OnOk result (FoldsTo (V.takes ns.now) visitor.old (of_common itself common.now) visitor.new) }
    ensures refused { IfErr result (StopsAmong (V.takes ns.now) (V.refuses ns.now) visitor.old
        (of_common itself common.now)) }
{
    walk_type(visitor, ns, &common.ty)
}

// Tells the visitor the parents of an entity type, as written.
fn walk_parents<'a, N, V: Visitor<N>>(
    visitor: &mut V,
    ns: &'a Option<Name>,
    names: &'a [N],
) -> Result<(), V::Refusal>
    ensures taken { OnOk result (FoldsTo (V.takes ns.now) visitor.old (of_parents itself names.now) visitor.new) }
    ensures refused { IfErr result (StopsAmong (V.takes ns.now) (V.refuses ns.now) visitor.old
        (of_parents itself names.now)) }
{
    for name in names {
        meet(visitor, ns, LentPart::Parent { name })?;
    }
    Ok(())
}

// Tells the visitor the principals of an action, as written.
fn walk_principals<'a, N, V: Visitor<N>>(
    visitor: &mut V,
    ns: &'a Option<Name>,
    names: &'a [N],
) -> Result<(), V::Refusal>
    ensures taken { OnOk result (FoldsTo (V.takes ns.now) visitor.old (of_principals itself names.now) visitor.new) }
    ensures refused { IfErr result (StopsAmong (V.takes ns.now) (V.refuses ns.now) visitor.old
        (of_principals itself names.now)) }
{
    for name in names {
        meet(visitor, ns, LentPart::Principal { name })?;
    }
    Ok(())
}

// Tells the visitor the resources of an action, as written.
fn walk_resources<'a, N, V: Visitor<N>>(
    visitor: &mut V,
    ns: &'a Option<Name>,
    names: &'a [N],
) -> Result<(), V::Refusal>
    ensures taken { OnOk result (FoldsTo (V.takes ns.now) visitor.old (of_resources itself names.now) visitor.new) }
    ensures refused { IfErr result (StopsAmong (V.takes ns.now) (V.refuses ns.now) visitor.old
        (of_resources itself names.now)) }
{
    for name in names {
        meet(visitor, ns, LentPart::Resource { name })?;
    }
    Ok(())
}

// Tells the visitor each part of the type of tags, where there are tags.
fn walk_tags<'a, N, V: Visitor<N>>(
    visitor: &mut V,
    ns: &'a Option<Name>,
    tags: &'a Option<Boxed<Type<N>>>,
) -> Result<(), V::Refusal>
    ensures taken { OnOk result (FoldsTo (V.takes ns.now) visitor.old
        (option_map_or (of_type itself) tags.now []) visitor.new) }
    ensures refused { IfErr result (StopsAmong (V.takes ns.now) (V.refuses ns.now) visitor.old
        (option_map_or (of_type itself) tags.now [])) }
{
    match tags {
        Some(tags) => walk_type(visitor, ns, tags.get()),
        None => Ok(()),
    }
}

// Tells the visitor the parents of an entity type, and the parts of its shape and its tags.
fn walk_standard<'a, N, V: Visitor<N>>(
    visitor: &mut V,
    ns: &'a Option<Name>,
    standard: &'a StandardEntityType<N>,
) -> Result<(), V::Refusal>
    ensures taken { OnOk result (FoldsTo (V.takes ns.now) visitor.old (of_standard itself standard.now) visitor.new) }
    ensures refused { IfErr result (StopsAmong (V.takes ns.now) (V.refuses ns.now) visitor.old
        (of_standard itself standard.now)) }
{
    walk_parents(visitor, ns, standard.member_of_types.as_slice())?;
    walk_type(visitor, ns, &standard.shape.0)?;
    walk_tags(visitor, ns, &standard.tags)
}

// Tells the visitor each part of what is declared of an entity type.
fn walk_kind<'a, N, V: Visitor<N>>(
    visitor: &mut V,
    ns: &'a Option<Name>,
    kind: &'a EntityTypeKind<N>,
) -> Result<(), V::Refusal>
    ensures taken { OnOk result (FoldsTo (V.takes ns.now) visitor.old (of_kind itself kind.now) visitor.new) }
    ensures refused { IfErr result (StopsAmong (V.takes ns.now) (V.refuses ns.now) visitor.old
        (of_kind itself kind.now)) }
{
    match kind {
        EntityTypeKind::Standard(standard) => walk_standard(visitor, ns, standard.get()),
        EntityTypeKind::Enum { .. } => Ok(()),
    }
}

/// Tells the visitor each part of an entity type, and before them that it is external and not bare, if it is.
pub fn walk_entity<'a, N, V: Visitor<N>>(
    visitor: &mut V,
    ns: &'a Option<Name>,
    entity: &'a EntityType<N>,
) -> Result<(), V::Refusal>
    ensures taken { OnOk result (FoldsTo (V.takes ns.now) visitor.old (of_entity itself entity.now) visitor.new) }
    ensures refused { IfErr result (StopsAmong (V.takes ns.now) (V.refuses ns.now) visitor.old
        (of_entity itself entity.now)) }
{
    let excess = entity.external && !is_bare_entity(entity);
    meet_where(visitor, ns, excess, LentPart::ExternalNotBare)?;
    walk_kind(visitor, ns, &entity.kind)
}

// Tells the visitor each part of what an action applies to: principals, resources, context.
fn walk_apply<'a, N, V: Visitor<N>>(
    visitor: &mut V,
    ns: &'a Option<Name>,
    spec: &'a ApplySpec<N>,
) -> Result<(), V::Refusal>
    ensures taken { OnOk result (FoldsTo (V.takes ns.now) visitor.old (of_apply itself spec.now) visitor.new) }
    ensures refused { IfErr result (StopsAmong (V.takes ns.now) (V.refuses ns.now) visitor.old
        (of_apply itself spec.now)) }
{
    walk_principals(visitor, ns, spec.principal_types.as_slice())?;
    walk_resources(visitor, ns, spec.resource_types.as_slice())?;
    walk_context(visitor, ns, &spec.context)
}

// Tells the visitor the names of the attributes of an action, where any are written.
fn walk_attributes<'a, N, V: Visitor<N>>(
    visitor: &mut V,
    ns: &'a Option<Name>,
    names: &'a Option<Set<Text>>,
) -> Result<(), V::Refusal>
    ensures taken { OnOk result (FoldsTo (V.takes ns.now) visitor.old
        (option_map_or (λ names. itself (action_attributes names)) names.now []) visitor.new) }
    ensures refused { IfErr result (StopsAmong (V.takes ns.now) (V.refuses ns.now) visitor.old
        (option_map_or (λ names. itself (action_attributes names)) names.now [])) }
{
    match names {
        Some(names) => meet(visitor, ns, LentPart::ActionAttributes { names }),
        None => Ok(()),
    }
}

// Tells the visitor the parents of an action.
fn walk_uids<'a, N: NameText, V: Visitor<N>>(
    visitor: &mut V,
    ns: &'a Option<Name>,
    uids: &'a [ActionEntityUID<N>],
) -> Result<(), V::Refusal>
    ensures taken { OnOk result (FoldsTo (V.takes ns.now) visitor.old (of_uids itself uids.now) visitor.new) }
    ensures refused { IfErr result (StopsAmong (V.takes ns.now) (V.refuses ns.now) visitor.old
        (of_uids itself uids.now)) }
{
    for uid in uids {
        let (id, ty) = (&uid.id, &uid.ty);
        meet(visitor, ns, LentPart::ActionParent { id, ty })?;
    }
    Ok(())
}

// Tells the visitor the parents of an action, where any are written.
fn walk_action_parents<'a, N: NameText, V: Visitor<N>>(
    visitor: &mut V,
    ns: &'a Option<Name>,
    parents: &'a Option<List<ActionEntityUID<N>>>,
) -> Result<(), V::Refusal>
    ensures taken { OnOk result (FoldsTo (V.takes ns.now) visitor.old
        (option_map_or (of_uids itself) parents.now []) visitor.new) }
    ensures refused { IfErr result (StopsAmong (V.takes ns.now) (V.refuses ns.now) visitor.old
        (option_map_or (of_uids itself) parents.now [])) }
{
    match parents {
        Some(parents) => walk_uids(visitor, ns, parents.as_slice()),
        None => Ok(()),
    }
}

// Tells the visitor each part of what an action applies to, where that is said.
fn walk_application<'a, N, V: Visitor<N>>(
    visitor: &mut V,
    ns: &'a Option<Name>,
    spec: &'a Option<ApplySpec<N>>,
) -> Result<(), V::Refusal>
    ensures taken { OnOk result (FoldsTo (V.takes ns.now) visitor.old
        (option_map_or (of_apply itself) spec.now []) visitor.new) }
    ensures refused { IfErr result (StopsAmong (V.takes ns.now) (V.refuses ns.now) visitor.old
        (option_map_or (of_apply itself) spec.now [])) }
{
    match spec {
        Some(spec) => walk_apply(visitor, ns, spec),
        None => Ok(()),
    }
}

// Tells the visitor the parents of an action, and each part of what it applies to.
fn walk_relations<'a, N: NameText, V: Visitor<N>>(
    visitor: &mut V,
    ns: &'a Option<Name>,
    action: &'a ActionType<N>,
) -> Result<(), V::Refusal>
    ensures taken { OnOk result (FoldsTo (V.takes ns.now) visitor.old (of_relations itself action.now) visitor.new) }
    ensures refused { IfErr result (StopsAmong (V.takes ns.now) (V.refuses ns.now) visitor.old
        (of_relations itself action.now)) }
{
    walk_action_parents(visitor, ns, &action.member_of)?;
    walk_application(visitor, ns, &action.applies_to)
}

// Tells the visitor what an action is made of.
fn walk_action_parts<'a, N: NameText, V: Visitor<N>>(
    visitor: &mut V,
    ns: &'a Option<Name>,
    action: &'a ActionType<N>,
) -> Result<(), V::Refusal>
    ensures taken { OnOk result (FoldsTo (V.takes ns.now) visitor.old (of_action_parts itself action.now) visitor.new) }
    ensures refused { IfErr result (StopsAmong (V.takes ns.now) (V.refuses ns.now) visitor.old
        (of_action_parts itself action.now)) }
{
    walk_attributes(visitor, ns, &action.attributes)?;
    walk_relations(visitor, ns, action)
}

/// Tells the visitor each part of an action, and before them that it is external and not bare, if it is.
pub fn walk_action<'a, N: NameText, V: Visitor<N>>(
    visitor: &mut V,
    ns: &'a Option<Name>,
    action: &'a ActionType<N>,
) -> Result<(), V::Refusal>
    ensures taken { OnOk result (FoldsTo (V.takes ns.now) visitor.old (of_action itself action.now) visitor.new) }
    ensures refused { IfErr result (StopsAmong (V.takes ns.now) (V.refuses ns.now) visitor.old
        (of_action itself action.now)) }
{
    let excess = action.external && !is_bare_action(action);
    meet_where(visitor, ns, excess, LentPart::ExternalNotBare)?;
    walk_action_parts(visitor, ns, action)
}
