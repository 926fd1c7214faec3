ghost use Rattle.std.specs.Prelude.{◌≡◌, true, map, IfOk, IfErr, OnOk, IfSome, IfNone};
ghost use Rattle.std.specs.List.{AllZip};
ghost use Rattle.schema_json.specs.declared.entity_type.EntityTypeKind.TheVariants.{Standard};
ghost use Rattle.schema_json_walk.specs.Bare.{is_bare_entity};
ghost use Rattle.schema_resolve_definitions.specs.Declarations.{name_of};
ghost use Rattle.schema_build_checks.specs.Rows.{OrMemory};
ghost use Rattle.schema_build_expand.specs.Targets.{AreExpanded};
ghost use Rattle.schema_build_scope.specs.FragmentScope.{fragment_scope};
ghost use Rattle.schema_build_scope.specs.Parts.{IsAllKnown, AreTypesReady};
ghost use Rattle.schema_build_hierarchy.specs.Declarations.{declared_entities};
ghost use Rattle.schema_build_hierarchy.specs.Entries.{AreEntities, entity_of};
ghost use Rattle.schema_build_items.specs.Kinds.{IsKindBuilt, IsKindReady, AreTagsReady, IsKindOf, TagsBuilt};
ghost use Rattle.schema_build_items.specs.NoRecord.{LacksShape, AreShapesRecords, HasNoRecordShape, IsNoRecord};
ghost use Rattle.schema_build_items.specs.NoRecord.{IsShapeError};

use cedar_data::{Boxed, CloneIn};
use cedar_identifiers::{Name, RawName};
use schema_build_errors::{ContextOrShape, ContextOrShapeNotRecordError, Refusal, SchemaError};
use schema_build_expand::laws::types_stand_for_one;
use schema_build_hierarchy::EntityEntry;
use schema_build_scope::laws::common_types_are_declared_once;
use schema_build_scope::{FragmentNames, expand_in};
use schema_build_types::{Type as BuiltType, ValidatorEntityTypeKind};
use schema_json::{EntityTypeKind, StandardEntityType, Type};
use std::alloc::{AllocError, Global};

/// What is built for each declared entity type, in the order of the entries. It refuses a fragment in which a shape is
/// no record, and names the least entity type with such a shape.
pub fn entity_kinds(
    alloc: Global,
    names: &FragmentNames<'_>,
    done: &[Option<BuiltType>],
    entries: &[EntityEntry<'_>],
) -> Result<Vec<ValidatorEntityTypeKind>, Refusal>
    requires known { IsAllKnown names.now.fragment names.now.table }
    requires entries { AreEntities (declared_entities names.now.fragment) entries.now }
    requires done { AreExpanded (fragment_scope names.now.fragment names.now.table) done.now }
    requires ready { AreTypesReady names.now.fragment names.now.table done.now }
    ensures kinds { IfOk result (λ kinds. AllZip (IsKindBuilt (fragment_scope names.now.fragment names.now.table))
        (map entity_of entries.now) kinds.items) }
    ensures ok { OnOk result (AreShapesRecords (fragment_scope names.now.fragment names.now.table) names.now.fragment) }
    ensures err { IfErr result (OrMemory (HasNoRecordShape names.now.fragment names.now.table)) }
{
    common_types_are_declared_once(names.fragment(), names.table());
    types_stand_for_one::<RawName>();
    let mut kinds = Vec::with_capacity(alloc, entries.len())?;
    for entry in entries {
        match entity_kind(alloc, names, done, entry)? {
            Some(kind) => kinds.push(kind)?,
            None => return Err(no_shape(alloc, &entry.name)?),
        }
    }
    Ok(kinds)
}

// The error that names this entity type.
fn no_shape(alloc: Global, name: &Name) -> Result<Refusal, AllocError>
    ensures { IfOk result (IsShapeError name.now) }
{
    let ctx_or_shape = ContextOrShape::EntityTypeShape(name.clone_in(alloc)?);
    let error = ContextOrShapeNotRecordError { ctx_or_shape };
    Refusal::new(alloc, SchemaError::ContextOrShapeNotRecord(error))
}

// What is built for a declared entity type, unless its shape is no record.
fn entity_kind(
    alloc: Global,
    names: &FragmentNames<'_>,
    done: &[Option<BuiltType>],
    entry: &EntityEntry<'_>,
) -> Result<Option<ValidatorEntityTypeKind>, AllocError>
    requires ready { IsKindReady names.now.fragment names.now.table done.now entry.now.ns.now entry.now.ty.now.kind }
    requires bare { entry.now.ty.now.external ≡ true → is_bare_entity entry.now.ty.now ≡ true }
    requires done { AreExpanded (fragment_scope names.now.fragment names.now.table) done.now }
    ensures some { IfOk result (λ found. IfSome found (IsKindBuilt (fragment_scope names.now.fragment names.now.table)
        (entity_of entry.now))) }
    ensures none { IfOk result (λ found. IfNone found (LacksShape (fragment_scope names.now.fragment names.now.table)
        (entity_of entry.now))) }
{
    if entry.ty.external {
        return Ok(Some(ValidatorEntityTypeKind::External));
    }
    match &entry.ty.kind {
        EntityTypeKind::Standard(standard) => {
            standard_kind(alloc, names, done, entry.ns, standard.get())
        }
        EntityTypeKind::Enum { choices } => {
            let choices = choices.get().clone_in(alloc)?;
            Ok(Some(ValidatorEntityTypeKind::Enum(choices)))
        }
    }
}

// What is built for an entity type whose entities are not listed, unless its shape is no record.
fn standard_kind(
    alloc: Global,
    names: &FragmentNames<'_>,
    done: &[Option<BuiltType>],
    ns: &Option<Name>,
    standard: &StandardEntityType<RawName>,
) -> Result<Option<ValidatorEntityTypeKind>, AllocError>
    requires ready { IsKindReady names.now.fragment names.now.table done.now ns.now (Standard standard.now) }
    requires done { AreExpanded (fragment_scope names.now.fragment names.now.table) done.now }
    ensures some { IfOk result (λ found. IfSome found (IsKindOf (fragment_scope names.now.fragment names.now.table)
        (name_of ns.now) (Standard standard.now))) }
    ensures none { IfOk result (λ found. IfNone found (IsNoRecord (fragment_scope names.now.fragment names.now.table)
        (name_of ns.now) standard.now.shape.0)) }
{
    let shape = expand_in(alloc, names, done, ns, &standard.shape.0)?;
    match shape {
        BuiltType::Record { attrs, more } => {
            let tags = expand_tags(alloc, names, done, ns, &standard.tags)?;
            Ok(Some(ValidatorEntityTypeKind::Standard {
                attributes: attrs,
                more,
                tags,
            }))
        }
        _ => Ok(None),
    }
}

// What a type of tags stands for, where there are tags.
fn expand_tags(
    alloc: Global,
    names: &FragmentNames<'_>,
    done: &[Option<BuiltType>],
    ns: &Option<Name>,
    tags: &Option<Boxed<Type<RawName>>>,
) -> Result<Option<Boxed<BuiltType>>, AllocError>
    requires ready { AreTagsReady names.now.fragment names.now.table done.now ns.now tags.now }
    requires done { AreExpanded (fragment_scope names.now.fragment names.now.table) done.now }
    ensures { IfOk result (TagsBuilt (fragment_scope names.now.fragment names.now.table) (name_of ns.now) tags.now) }
{
    match tags {
        Some(ty) => {
            let built = expand_in(alloc, names, done, ns, ty.get())?;
            Ok(Some(Boxed::new(alloc, built)?))
        }
        None => Ok(None),
    }
}
