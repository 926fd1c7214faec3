ghost use Rattle.std.specs.Prelude.{◌≡◌, [], map, IfOk, IfErr, OnOk};
ghost use Rattle.schema_resolve.specs.Faults.{NamesFirst};
ghost use Rattle.schema_resolve.specs.Renamed.{renamed, renamed_common, renamed_context, renamed_standard};
ghost use Rattle.schema_resolve.specs.Renamed.{renamed_kind, renamed_entity, renamed_apply, renamed_uid};
ghost use Rattle.schema_resolve.specs.Renamed.{renamed_action};
ghost use Rattle.std.specs.List.{flat_map};
ghost use Rattle.std.specs.Option.{option_map, option_map_or};
ghost use Rattle.schema_json_walk.specs.Walk.{of_type, of_common, of_standard, of_kind, of_entity, of_apply, of_uid};
ghost use Rattle.schema_json_walk.specs.Walk.{of_action};
ghost use Rattle.schema_resolve_targets.specs.ReferenceParts.{by_reference};

use crate::rename_types::rename_type;
use crate::renamer::Renamer;
use crate::stop::Stop;
use cedar_data::{Boxed, CloneIn, List};
use cedar_identifiers::{NameText, ReferenceType};
use schema_json::{
    ActionEntityUID, ActionType, ApplySpec, AttributesOrContext, CommonType, EntityType,
    EntityTypeKind, StandardEntityType, Type,
};
use std::alloc::Global;

// The entity types that are named, each replaced.
fn rename_names<N: NameText, M: NameText + Drop, R: Renamer<N, M>>(
    alloc: Global,
    renamer: &R,
    names: &[N],
) -> Result<List<M>, Stop>
    ensures out { IfOk result (λ out. out ≡ map ((R.becomes renamer.now).name ReferenceType.Entity) names.now) }
    ensures defined { OnOk result (flat_map ((R.untargeted renamer.now).types ReferenceType.Entity) names.now ≡ []) }
    ensures err { IfErr result (NamesFirst
        (flat_map ((R.untargeted renamer.now).types ReferenceType.Entity) names.now)) }
{
    let mut out = Vec::with_capacity(alloc, names.len())?;
    for name in names {
        let name = renamer.rename(alloc, ReferenceType::Entity, name)?;
        out.push(name)?;
    }
    Ok(List::from_vec(out))
}

// A declared common type, with each name replaced.
pub(crate) fn rename_common<N: NameText, M: NameText + Drop, R: Renamer<N, M>>(
    alloc: Global,
    renamer: &R,
    common: &CommonType<N>,
) -> Result<CommonType<M>, Stop>
    ensures out { IfOk result (λ out. out ≡ renamed_common (R.becomes renamer.now) common.now) }
    ensures defined { OnOk result (of_common (by_reference (R.untargeted renamer.now)) common.now ≡ []) }
    ensures err { IfErr result (NamesFirst (of_common (by_reference (R.untargeted renamer.now)) common.now)) }
{
    Ok(CommonType {
        ty: rename_type(alloc, renamer, &common.ty)?,
        annotations: common.annotations.clone_in(alloc)?,
        loc: common.loc,
    })
}

// A shape or a context, with each name replaced.
pub(crate) fn rename_context<N: NameText, M: NameText + Drop, R: Renamer<N, M>>(
    alloc: Global,
    renamer: &R,
    context: &AttributesOrContext<N>,
) -> Result<AttributesOrContext<M>, Stop>
    ensures out { IfOk result (λ out. out ≡ renamed_context (R.becomes renamer.now) context.now) }
    ensures defined { OnOk result (of_type (by_reference (R.untargeted renamer.now)) context.now.0 ≡ []) }
    ensures err { IfErr result (NamesFirst (of_type (by_reference (R.untargeted renamer.now)) context.now.0)) }
{
    Ok(AttributesOrContext(rename_type(alloc, renamer, &context.0)?))
}

// The type of tags, with each name replaced.
fn rename_tags<N: NameText, M: NameText + Drop, R: Renamer<N, M>>(
    alloc: Global,
    renamer: &R,
    tags: &Option<Boxed<Type<N>>>,
) -> Result<Option<Boxed<Type<M>>>, Stop>
    ensures out { IfOk result (λ out. out ≡ option_map (renamed (R.becomes renamer.now)) tags.now) }
    ensures defined { OnOk result (option_map_or (of_type (by_reference (R.untargeted renamer.now))) tags.now [] ≡ []) }
    ensures err { IfErr result (NamesFirst
        (option_map_or (of_type (by_reference (R.untargeted renamer.now))) tags.now [])) }
{
    match tags {
        Some(tags) => {
            let tags = rename_type(alloc, renamer, tags.get())?;
            Ok(Some(Boxed::new(alloc, tags)?))
        }
        None => Ok(None),
    }
}

// What is declared of an entity type that is no enum, with each name replaced.
fn rename_standard<N: NameText, M: NameText + Drop, R: Renamer<N, M>>(
    alloc: Global,
    renamer: &R,
    standard: &StandardEntityType<N>,
) -> Result<StandardEntityType<M>, Stop>
    ensures out { IfOk result (λ out. out ≡ renamed_standard (R.becomes renamer.now) standard.now) }
    ensures defined { OnOk result (of_standard (by_reference (R.untargeted renamer.now)) standard.now ≡ []) }
    ensures err { IfErr result (NamesFirst (of_standard (by_reference (R.untargeted renamer.now)) standard.now)) }
{
    let member_of_types = rename_names(alloc, renamer, standard.member_of_types.as_slice())?;
    let shape = rename_context(alloc, renamer, &standard.shape)?;
    let tags = rename_tags(alloc, renamer, &standard.tags)?;
    Ok(StandardEntityType {
        member_of_types,
        shape,
        tags,
    })
}

// What is declared of any entity type, with each name replaced.
fn rename_kind<N: NameText, M: NameText + Drop, R: Renamer<N, M>>(
    alloc: Global,
    renamer: &R,
    kind: &EntityTypeKind<N>,
) -> Result<EntityTypeKind<M>, Stop>
    ensures out { IfOk result (λ out. out ≡ renamed_kind (R.becomes renamer.now) kind.now) }
    ensures defined { OnOk result (of_kind (by_reference (R.untargeted renamer.now)) kind.now ≡ []) }
    ensures err { IfErr result (NamesFirst (of_kind (by_reference (R.untargeted renamer.now)) kind.now)) }
{
    match kind {
        EntityTypeKind::Standard(standard) => {
            let standard = rename_standard(alloc, renamer, standard.get())?;
            Ok(EntityTypeKind::Standard(Boxed::new(alloc, standard)?))
        }
        EntityTypeKind::Enum { choices } => Ok(EntityTypeKind::Enum {
            choices: choices.clone_in(alloc)?,
        }),
    }
}

// An entity type, with each name replaced.
#[tactic(auto, using(crate::proofs::Told::entity_told))]
pub(crate) fn rename_entity<N: NameText, M: NameText + Drop, R: Renamer<N, M>>(
    alloc: Global,
    renamer: &R,
    entity: &EntityType<N>,
) -> Result<EntityType<M>, Stop>
    ensures out { IfOk result (λ out. out ≡ renamed_entity (R.becomes renamer.now) entity.now) }
    ensures defined { OnOk result (of_entity (by_reference (R.untargeted renamer.now)) entity.now ≡ []) }
    ensures err { IfErr result (NamesFirst (of_entity (by_reference (R.untargeted renamer.now)) entity.now)) }
{
    Ok(EntityType {
        kind: rename_kind(alloc, renamer, &entity.kind)?,
        external: entity.external,
        annotations: entity.annotations.clone_in(alloc)?,
        loc: entity.loc,
    })
}

// What an action applies to, with each name replaced: its principals, its resources, its context.
#[tactic(auto, using(crate::proofs::Told::apply_told))]
pub(crate) fn rename_apply<N: NameText, M: NameText + Drop, R: Renamer<N, M>>(
    alloc: Global,
    renamer: &R,
    spec: &ApplySpec<N>,
) -> Result<ApplySpec<M>, Stop>
    ensures out { IfOk result (λ out. out ≡ renamed_apply (R.becomes renamer.now) spec.now) }
    ensures defined { OnOk result (of_apply (by_reference (R.untargeted renamer.now)) spec.now ≡ []) }
    ensures err { IfErr result (NamesFirst (of_apply (by_reference (R.untargeted renamer.now)) spec.now)) }
{
    let principal_types = rename_names(alloc, renamer, spec.principal_types.as_slice())?;
    let resource_types = rename_names(alloc, renamer, spec.resource_types.as_slice())?;
    let context = rename_context(alloc, renamer, &spec.context)?;
    Ok(ApplySpec {
        resource_types,
        principal_types,
        context,
    })
}

// A reference to an action, with its type replaced.
pub(crate) fn rename_uid<N: NameText, M: NameText + Drop, R: Renamer<N, M>>(
    alloc: Global,
    renamer: &R,
    uid: &ActionEntityUID<N>,
) -> Result<ActionEntityUID<M>, Stop>
    ensures out { IfOk result (λ out. out
        ≡ renamed_uid (R.becomes renamer.now) (R.action_becomes renamer.now) uid.now) }
    ensures defined { OnOk result (of_uid (by_reference (R.untargeted renamer.now)) uid.now ≡ []) }
    ensures err { IfErr result (NamesFirst (of_uid (by_reference (R.untargeted renamer.now)) uid.now)) }
{
    let ty = renamer.rename_action(alloc, uid)?;
    Ok(ActionEntityUID::with_type(ty, uid.id.clone_in(alloc)?))
}

// References to actions, each with its type replaced.
fn rename_uids<N: NameText, M: NameText + Drop, R: Renamer<N, M>>(
    alloc: Global,
    renamer: &R,
    uids: &[ActionEntityUID<N>],
) -> Result<List<ActionEntityUID<M>>, Stop>
    ensures out { IfOk result (λ out. out
        ≡ map (renamed_uid (R.becomes renamer.now) (R.action_becomes renamer.now)) uids.now) }
    ensures defined { OnOk result (flat_map (of_uid (by_reference (R.untargeted renamer.now))) uids.now ≡ []) }
    ensures err { IfErr result (NamesFirst (flat_map (of_uid (by_reference (R.untargeted renamer.now))) uids.now)) }
{
    let mut out = Vec::with_capacity(alloc, uids.len())?;
    for uid in uids {
        let uid = rename_uid(alloc, renamer, uid)?;
        out.push(uid)?;
    }
    Ok(List::from_vec(out))
}

// An action's parents, each with its type replaced.
fn rename_parents<N: NameText, M: NameText + Drop, R: Renamer<N, M>>(
    alloc: Global,
    renamer: &R,
    parents: &Option<List<ActionEntityUID<N>>>,
) -> Result<Option<List<ActionEntityUID<M>>>, Stop>
    ensures out { IfOk result (λ out. out
        ≡ option_map (map (renamed_uid (R.becomes renamer.now) (R.action_becomes renamer.now))) parents.now) }
    ensures defined { OnOk result (option_map_or (flat_map (of_uid (by_reference (R.untargeted renamer.now))))
        parents.now [] ≡ []) }
    ensures err { IfErr result (NamesFirst
        (option_map_or (flat_map (of_uid (by_reference (R.untargeted renamer.now)))) parents.now [])) }
{
    match parents {
        Some(parents) => Ok(Some(rename_uids(alloc, renamer, parents.as_slice())?)),
        None => Ok(None),
    }
}

// What an action applies to, where that is said, with each name replaced.
fn rename_application<N: NameText, M: NameText + Drop, R: Renamer<N, M>>(
    alloc: Global,
    renamer: &R,
    spec: &Option<ApplySpec<N>>,
) -> Result<Option<ApplySpec<M>>, Stop>
    ensures out { IfOk result (λ out. out ≡ option_map (renamed_apply (R.becomes renamer.now)) spec.now) }
    ensures defined { OnOk result (option_map_or (of_apply (by_reference (R.untargeted renamer.now))) spec.now []
        ≡ []) }
    ensures err { IfErr result (NamesFirst
        (option_map_or (of_apply (by_reference (R.untargeted renamer.now))) spec.now [])) }
{
    match spec {
        Some(spec) => Ok(Some(rename_apply(alloc, renamer, spec)?)),
        None => Ok(None),
    }
}

// An action with each name replaced: its parents, then what it applies to.
#[tactic(auto, using(crate::proofs::Told::action_told))]
pub(crate) fn rename_action<N: NameText, M: NameText + Drop, R: Renamer<N, M>>(
    alloc: Global,
    renamer: &R,
    action: &ActionType<N>,
) -> Result<ActionType<M>, Stop>
    ensures out { IfOk result (λ out. out ≡ renamed_action (R.becomes renamer.now)
        (R.action_becomes renamer.now) action.now) }
    ensures defined { OnOk result (of_action (by_reference (R.untargeted renamer.now)) action.now ≡ []) }
    ensures err { IfErr result (NamesFirst (of_action (by_reference (R.untargeted renamer.now)) action.now)) }
{
    let member_of = rename_parents(alloc, renamer, &action.member_of)?;
    let applies_to = rename_application(alloc, renamer, &action.applies_to)?;
    Ok(ActionType {
        attributes: action.attributes.clone_in(alloc)?,
        applies_to,
        member_of,
        external: action.external,
        annotations: action.annotations.clone_in(alloc)?,
        loc: action.loc,
    })
}
