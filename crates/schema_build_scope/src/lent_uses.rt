ghost use Rattle.std.specs.Prelude.{◌≡◌, ◌++◌, map, IfOk, OnOk};
ghost use Rattle.std.specs.List.{flat_map};
ghost use Rattle.schema_build_scope.specs.LentCommons.{lent_type};
ghost use Rattle.schema_build_scope.specs.Uses.{used_by_apply, used_by_kind, used_by_tags, used_types};

use crate::lent_commons::LentType;
use cedar_data::{Boxed, Text};
use cedar_identifiers::{Name, RawName, UnreservedId};
use schema_json::{ActionType, ApplySpec, EntityType, EntityTypeKind, Fragment, Type};
use std::alloc::{AllocError, Global};

// The types that a fragment uses, in the order of the walk.
pub(crate) fn used_types<'f>(
    alloc: Global,
    fragment: &'f Fragment<RawName>,
) -> Result<Vec<LentType<'f>>, AllocError>
    ensures { IfOk result (λ uses. map lent_type uses.items ≡ used_types fragment.now) }
{
    let mut uses = Vec::new(alloc);
    for (ns, definition) in fragment.0.as_slice() {
        push_entities(&mut uses, ns, definition.entity_types.as_slice())?;
        push_actions(&mut uses, ns, definition.actions.as_slice())?;
    }
    Ok(uses)
}

// Adds the types of the entity types of a namespace.
fn push_entities<'f>(
    uses: &mut Vec<LentType<'f>>,
    ns: &'f Option<Name>,
    entities: &'f [(UnreservedId, EntityType<RawName>)],
) -> Result<(), AllocError>
    ensures { OnOk result (map lent_type uses.new.items ≡ map lent_type uses.old.items
        ++ flat_map (λ d. used_by_kind ns.now d.1.kind) entities.now) }
{
    for (_, entity) in entities {
        push_kind(uses, ns, &entity.kind)?;
    }
    Ok(())
}

// Adds the types of an entity type.
fn push_kind<'f>(
    uses: &mut Vec<LentType<'f>>,
    ns: &'f Option<Name>,
    kind: &'f EntityTypeKind<RawName>,
) -> Result<(), AllocError>
    ensures { OnOk result (map lent_type uses.new.items ≡ map lent_type uses.old.items
        ++ used_by_kind ns.now kind.now) }
{
    match kind {
        EntityTypeKind::Standard(standard) => {
            let standard = standard.get();
            let ty = &standard.shape.0;
            uses.push(LentType { ns, ty })?;
            push_tags(uses, ns, &standard.tags)
        }
        EntityTypeKind::Enum { .. } => Ok(()),
    }
}

// Adds the type of tags, where there are tags.
fn push_tags<'f>(
    uses: &mut Vec<LentType<'f>>,
    ns: &'f Option<Name>,
    tags: &'f Option<Boxed<Type<RawName>>>,
) -> Result<(), AllocError>
    ensures { OnOk result (map lent_type uses.new.items ≡ map lent_type uses.old.items
        ++ used_by_tags ns.now tags.now) }
{
    if let Some(ty) = tags {
        uses.push(LentType { ns, ty: ty.get() })?;
    }
    Ok(())
}

// Adds the contexts of the actions of a namespace.
fn push_actions<'f>(
    uses: &mut Vec<LentType<'f>>,
    ns: &'f Option<Name>,
    actions: &'f [(Text, ActionType<RawName>)],
) -> Result<(), AllocError>
    ensures { OnOk result (map lent_type uses.new.items ≡ map lent_type uses.old.items
        ++ flat_map (λ d. used_by_apply ns.now d.1.applies_to) actions.now) }
{
    for (_, action) in actions {
        push_context(uses, ns, &action.applies_to)?;
    }
    Ok(())
}

// Adds the context of an action, where it applies to something.
fn push_context<'f>(
    uses: &mut Vec<LentType<'f>>,
    ns: &'f Option<Name>,
    applies: &'f Option<ApplySpec<RawName>>,
) -> Result<(), AllocError>
    ensures { OnOk result (map lent_type uses.new.items ≡ map lent_type uses.old.items
        ++ used_by_apply ns.now applies.now) }
{
    if let Some(applies) = applies {
        let ty = &applies.context.0;
        uses.push(LentType { ns, ty })?;
    }
    Ok(())
}
