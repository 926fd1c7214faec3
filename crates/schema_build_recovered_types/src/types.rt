ghost use Rattle.std.specs.Prelude.{◌≡◌, [], ◌∷◌, None, IfOk, IfErr, OnOk, MatchOption};
ghost use Rattle.std.specs.Map.{keys_of};
ghost use Rattle.cedar_identifiers.specs.Names.{components_of};
ghost use Rattle.cedar_names.specs.Meaning as plain;
ghost use Rattle.schema_json.specs.Shapes.{record_type};
ghost use Rattle.schema_json.specs.declared.types.Type.{Variant};
ghost use Rattle.schema_build_types.specs.Content.{type_content, attributes_content, names_content};
ghost use Rattle.schema_build_types.specs.Content as said;
ghost use Rattle.schema_build_types.specs.Lacks.{type_lacks, attribute_lacks};
ghost use Rattle.schema_build_text.specs.Readings.{plain_type, plain_attributes};
ghost use Rattle.schema_build_recovered_types.specs.RecoveredTypes.{IsRecoveredType, AreRecoveredAttributes};
ghost use Rattle.schema_build_recovered_types.specs.FirstLacks.{IsSeveral, IsFirstLack};

use crate::names::written_name;
use cedar_data::{Boxed, CloneIn, Map, NonEmpty, Text};
use cedar_identifiers::laws::declared_names_go_by_components;
use cedar_identifiers::{Annotations, Name, RawName};
use schema_build_errors::RecoveryError;
use schema_build_types::Type as BuiltType;
use schema_json::{RecordType, Type, TypeOfAttribute, TypeVariant};
use std::alloc::Global;

/// The one name that these names are, and `None` where they are several.
pub fn only_name(names: &NonEmpty<Name>) -> Option<&Name>
    ensures { MatchOption result (IsSeveral (names_content names.now)) (λ name. names_content names.now
        ≡ components_of name.now.name ∷ []) }
{
    let (first, others) = names.parts();
    for name in others {
        declared_names_go_by_components(name, first);
        if *name != *first {
            return None;
        }
    }
    Some(first)
}

// The reference to the entity type of these names, which are to be one.
fn recovered_entity(
    alloc: Global,
    names: &NonEmpty<Name>,
) -> Result<TypeVariant<RawName>, RecoveryError>
    ensures recovered { IfOk result (λ shape. IsRecoveredType (plain_type (said.Entity (names_content names.now)))
        (Variant shape None)) }
    ensures whole { OnOk result (type_lacks (said.Entity (names_content names.now)) ≡ []) }
    ensures lack { IfErr result (IsFirstLack (type_lacks (said.Entity (names_content names.now)))) }
{
    match only_name(names) {
        Some(name) => {
            let type_name = written_name(alloc, name)?;
            Ok(TypeVariant::EntityOrCommon { type_name })
        }
        None => Err(RecoveryError::JoinedEntities),
    }
}

// The shape of the type.
#[cycle(recover)]
fn recovered_variant(alloc: Global, ty: &BuiltType) -> Result<TypeVariant<RawName>, RecoveryError>
    ensures recovered { IfOk result (λ shape. IsRecoveredType (plain_type (type_content ty.now)) (Variant shape None)) }
    ensures whole { OnOk result (type_lacks (type_content ty.now) ≡ []) }
    ensures lack { IfErr result (IsFirstLack (type_lacks (type_content ty.now))) }
{
    match ty {
        BuiltType::AnyBool => Ok(TypeVariant::Boolean),
        BuiltType::Long => Ok(TypeVariant::Long),
        BuiltType::String => Ok(TypeVariant::String),
        BuiltType::Set { element } => match element {
            Some(element) => {
                let element = recovered_type(alloc, element.get())?;
                Ok(TypeVariant::Set {
                    element: Boxed::new(alloc, element)?,
                })
            }
            None => Err(RecoveryError::UnknownElement),
        },
        BuiltType::Record { attrs, more } => {
            if *more {
                return Err(RecoveryError::Unsupported);
            }
            let record = recovered_record(alloc, attrs)?;
            Ok(TypeVariant::Record(record))
        }
        BuiltType::Entity { names } => recovered_entity(alloc, names.get()),
        BuiltType::Extension { name } => Ok(TypeVariant::Extension {
            name: name.clone_in(alloc)?,
        }),
        BuiltType::Never | BuiltType::True | BuiltType::False | BuiltType::AnyEntity => {
            Err(RecoveryError::Unsupported)
        }
    }
}

/// The type of a fragment that stands for the type.
#[cycle(recover)]
pub fn recovered_type(alloc: Global, ty: &BuiltType) -> Result<Type<RawName>, RecoveryError>
    ensures recovered { IfOk result (IsRecoveredType (plain_type (type_content ty.now))) }
    ensures whole { OnOk result (type_lacks (type_content ty.now) ≡ []) }
    ensures lack { IfErr result (IsFirstLack (type_lacks (type_content ty.now))) }
{
    let ty = recovered_variant(alloc, ty)?;
    Ok(Type::from_variant(ty))
}

/// The record of these attributes.
#[cycle(recover)]
pub fn recovered_record(
    alloc: Global,
    attributes: &Map<Text, (BuiltType, bool)>,
) -> Result<RecordType<RawName>, RecoveryError>
    ensures recovered { IfOk result (λ r. IsRecoveredType
        (plain.Rec (plain_attributes (attributes_content attributes.now))) (record_type r)) }
    ensures whole { OnOk result (attribute_lacks (attributes_content attributes.now) ≡ []) }
    ensures lack { IfErr result (IsFirstLack (attribute_lacks (attributes_content attributes.now))) }
{
    let attributes = recovered_attributes(alloc, attributes.as_slice())?;
    Ok(RecordType {
        attributes: Map::from_sorted_vec(attributes),
        additional_attributes: false,
    })
}

// The attributes, in order, each under its name.
#[cycle(recover)]
fn recovered_attributes(
    alloc: Global,
    entries: &[(Text, (BuiltType, bool))],
) -> Result<Vec<(Text, TypeOfAttribute<RawName>)>, RecoveryError>
    ensures recovered { IfOk result (λ rows. AreRecoveredAttributes
        (plain_attributes (attributes_content entries.now)) rows.items) }
    ensures keys { IfOk result (λ rows. keys_of rows.items ≡ keys_of entries.now) }
    ensures whole { OnOk result (attribute_lacks (attributes_content entries.now) ≡ []) }
    ensures lack { IfErr result (IsFirstLack (attribute_lacks (attributes_content entries.now))) }
{
    let mut attributes = Vec::with_capacity(alloc, entries.len())?;
    for (name, (ty, required)) in entries {
        let ty = recovered_type(alloc, ty)?;
        let name = name.clone_in(alloc)?;
        let annotations = Annotations::new(alloc);
        attributes.push((
            name,
            TypeOfAttribute {
                ty,
                annotations,
                required: *required,
            },
        ))?;
    }
    Ok(attributes)
}
