ghost use Rattle.std.specs.Prelude.{◌≡◌, ◌++◌, [], None, OnOk, IfOk, IfErr};
ghost use Rattle.std.specs.List.{AllZip};
ghost use Rattle.std.specs.Option.{option_map};
ghost use Rattle.cedar_names.specs.Meaning as plain;
ghost use Rattle.cedar_names.specs.Meaning.{no_more};
ghost use Rattle.schema_build_types.specs.Content.{type_content, attributes_content, names_content, entity_content};
ghost use Rattle.schema_build_types.specs.Lacks.{attribute_lacks, entity_lacks, tag_lacks};
ghost use Rattle.schema_build_text.specs.Readings.{plain_type, plain_attributes, entity_reading};
ghost use Rattle.schema_build_recovered_types.specs.RecoveredTypes.{IsWritten, IsRecoveredType};
ghost use Rattle.schema_build_recovered.specs.Recovered.{AreRecoveredTags, IsRecoveredKind, IsRecoveredEntity};
ghost use Rattle.schema_build_recovered_types.specs.FirstLacks.{IsFirstLack};

use crate::sets::written_ancestors;
use cedar_data::{Boxed, CloneIn, Map, Shared, Text};
use cedar_identifiers::{Annotations, Name, RawName, UnreservedId};
use schema_build_errors::RecoveryError;
use schema_build_recovered_types::types::{recovered_record, recovered_type};
use schema_build_text::last_word;
use schema_build_types::{EntityTypeEntry, Type as BuiltType, ValidatorEntityTypeKind};
use schema_json::{
    AttributesOrContext, EntityType, EntityTypeKind, RecordType, StandardEntityType, Type,
};
use std::alloc::{AllocError, Global};

// The type of the tags, where there are any.
fn recovered_tags(
    alloc: Global,
    tags: &Option<Boxed<BuiltType>>,
) -> Result<Option<Boxed<Type<RawName>>>, RecoveryError>
    ensures recovered { IfOk result (AreRecoveredTags (option_map plain_type (option_map type_content tags.now))) }
    ensures whole { OnOk result (tag_lacks (option_map type_content tags.now) ≡ []) }
    ensures lack { IfErr result (IsFirstLack (tag_lacks (option_map type_content tags.now))) }
{
    match tags {
        None => Ok(None),
        Some(ty) => {
            let ty = recovered_type(alloc, ty.get())?;
            Ok(Some(Boxed::new(alloc, ty)?))
        }
    }
}

// A standard entity type with these attributes and tags.
fn recovered_standard(
    alloc: Global,
    ancestors: &[Shared<Name>],
    attributes: &Map<Text, (BuiltType, bool)>,
    tags: &Option<Boxed<BuiltType>>,
) -> Result<StandardEntityType<RawName>, RecoveryError>
    ensures parents { IfOk result (λ s. AllZip IsWritten (names_content ancestors.now) s.member_of_types) }
    ensures shape { IfOk result (λ s. IsRecoveredType (plain.Rec (plain_attributes (attributes_content attributes.now)))
        s.shape.0) }
    ensures tags { IfOk result (λ s. AreRecoveredTags (option_map plain_type (option_map type_content tags.now))
        s.tags) }
    ensures whole { OnOk result (attribute_lacks (attributes_content attributes.now)
        ++ tag_lacks (option_map type_content tags.now) ≡ []) }
    ensures lack { IfErr result (IsFirstLack (attribute_lacks (attributes_content attributes.now)
        ++ tag_lacks (option_map type_content tags.now))) }
{
    let record = recovered_record(alloc, attributes)?;
    let tags = recovered_tags(alloc, tags)?;
    let member_of_types = written_ancestors(alloc, ancestors)?;
    Ok(StandardEntityType {
        member_of_types,
        shape: AttributesOrContext::from_record(record),
        tags,
    })
}

// An entity type without attributes and tags.
fn recovered_external(
    alloc: Global,
    ancestors: &[Shared<Name>],
) -> Result<StandardEntityType<RawName>, AllocError>
    ensures parents { IfOk result (λ s. AllZip IsWritten (names_content ancestors.now) s.member_of_types) }
    ensures shape { IfOk result (λ s. IsRecoveredType (plain.Rec no_more) s.shape.0) }
    ensures tags { IfOk result (λ s. s.tags ≡ None) }
{
    let member_of_types = written_ancestors(alloc, ancestors)?;
    Ok(StandardEntityType {
        member_of_types,
        shape: AttributesOrContext::from_record(RecordType::default(alloc)),
        tags: None,
    })
}

// What is declared of the entity type.
fn recovered_kind(
    alloc: Global,
    entry: &EntityTypeEntry,
) -> Result<EntityTypeKind<RawName>, RecoveryError>
    ensures recovered { IfOk result (IsRecoveredKind (entity_reading (entity_content entry.now))
        (entity_reading (entity_content entry.now)).choices) }
    ensures whole { OnOk result (entity_lacks (entity_content entry.now) ≡ []) }
    ensures lack { IfErr result (IsFirstLack (entity_lacks (entity_content entry.now))) }
{
    let ancestors = entry.ty.ancestors.as_slice();
    match &entry.ty.kind {
        ValidatorEntityTypeKind::Standard {
            attributes,
            more,
            tags,
        } => {
            if *more {
                return Err(RecoveryError::Unsupported);
            }
            let standard = recovered_standard(alloc, ancestors, attributes, tags)?;
            Ok(EntityTypeKind::Standard(Boxed::new(alloc, standard)?))
        }
        ValidatorEntityTypeKind::Enum(choices) => {
            let choices = choices.clone_in(alloc)?;
            Ok(EntityTypeKind::Enum {
                choices: Boxed::new(alloc, choices)?,
            })
        }
        ValidatorEntityTypeKind::External => {
            let standard = recovered_external(alloc, ancestors)?;
            Ok(EntityTypeKind::Standard(Boxed::new(alloc, standard)?))
        }
    }
}

/// The entity type, under its basename.
pub fn recovered_entity_type(
    alloc: Global,
    entry: &EntityTypeEntry,
) -> Result<(UnreservedId, EntityType<RawName>), RecoveryError>
    ensures recovered { IfOk result (IsRecoveredEntity (entity_reading (entity_content entry.now))) }
    ensures whole { OnOk result (entity_lacks (entity_content entry.now) ≡ []) }
    ensures lack { IfErr result (IsFirstLack (entity_lacks (entity_content entry.now))) }
{
    let kind = recovered_kind(alloc, entry)?;
    let name = last_word(alloc, &entry.name)?;
    let external = matches!(&entry.ty.kind, ValidatorEntityTypeKind::External);
    let annotations = Annotations::new(alloc);
    Ok((
        name,
        EntityType {
            kind,
            external,
            annotations,
            loc: None,
        },
    ))
}
