ghost use Rattle.std.specs.Prelude.{◌≡◌, [], IfOk, IfErr, OnOk};
ghost use Rattle.schema_json.specs.declared.types.Type.{Variant};
ghost use Rattle.schema_resolve.specs.Faults.{NamesFirst};
ghost use Rattle.schema_resolve.specs.Renamed.{renamed, renamed_at, renamed_variant, renamed_record, renamed_attribute};
ghost use Rattle.schema_resolve.specs.Renamed.{renamed_entries};
ghost use Rattle.schema_json_walk.specs.Walk.{of_type, of_variant, of_record, of_attribute, of_entries};
ghost use Rattle.schema_resolve_targets.specs.ReferenceParts.{by_reference};

use crate::renamer::Renamer;
use crate::stop::Stop;
use cedar_data::{Boxed, CloneIn, Loc, Map, Text};
use cedar_identifiers::{NameText, ReferenceType};
use schema_json::{RecordType, Type, TypeOfAttribute, TypeVariant};
use std::alloc::Global;

// The type with each name replaced, or its first reference that means nothing.
#[cycle(rename)]
pub(crate) fn rename_type<N: NameText, M: NameText + Drop, R: Renamer<N, M>>(
    alloc: Global,
    renamer: &R,
    ty: &Type<N>,
) -> Result<Type<M>, Stop>
    ensures out { IfOk result (λ out. out ≡ renamed (R.becomes renamer.now) ty.now) }
    ensures defined { OnOk result (of_type (by_reference (R.untargeted renamer.now)) ty.now ≡ []) }
    ensures err { IfErr result (NamesFirst (of_type (by_reference (R.untargeted renamer.now)) ty.now)) }
{
    match ty {
        Type::Variant { ty, loc } => rename_at(alloc, renamer, ty, *loc),
        Type::CommonTypeRef { type_name, loc } => Ok(Type::CommonTypeRef {
            type_name: renamer.rename(alloc, ReferenceType::Common, type_name)?,
            loc: *loc,
        }),
    }
}

// The type of a shape at a place.
#[cycle(rename)]
fn rename_at<N: NameText, M: NameText + Drop, R: Renamer<N, M>>(
    alloc: Global,
    renamer: &R,
    shape: &TypeVariant<N>,
    loc: Option<Loc>,
) -> Result<Type<M>, Stop>
    ensures out { IfOk result (λ out. out ≡ renamed_at (R.becomes renamer.now) shape.now loc) }
    ensures defined { OnOk result (of_variant (by_reference (R.untargeted renamer.now)) shape.now ≡ []) }
    ensures err { IfErr result (NamesFirst (of_variant (by_reference (R.untargeted renamer.now)) shape.now)) }
{
    match shape {
        TypeVariant::EntityOrCommon { type_name } => renamer.rename_either(alloc, type_name, loc),
        TypeVariant::String => Ok(placed(TypeVariant::String, loc)),
        TypeVariant::Long => Ok(placed(TypeVariant::Long, loc)),
        TypeVariant::Boolean => Ok(placed(TypeVariant::Boolean, loc)),
        TypeVariant::Set { element } => {
            let element = rename_type(alloc, renamer, element.get())?;
            let element = Boxed::new(alloc, element)?;
            Ok(placed(TypeVariant::Set { element }, loc))
        }
        TypeVariant::Record(fields) => {
            let fields = rename_record(alloc, renamer, fields)?;
            Ok(placed(TypeVariant::Record(fields), loc))
        }
        TypeVariant::Entity { name } => {
            let name = renamer.rename(alloc, ReferenceType::Entity, name)?;
            Ok(placed(TypeVariant::Entity { name }, loc))
        }
        TypeVariant::Extension { name } => {
            let name = name.clone_in(alloc)?;
            Ok(placed(TypeVariant::Extension { name }, loc))
        }
    }
}

// A shape at a place.
fn placed<M>(ty: TypeVariant<M>, loc: Option<Loc>) -> Type<M>
    ensures { result ≡ Variant ty loc }
{
    Type::Variant { ty, loc }
}

// A shape by itself, in which a reference that may mean either kind stays one.
pub(crate) fn rename_variant<N: NameText, M: NameText + Drop, R: Renamer<N, M>>(
    alloc: Global,
    renamer: &R,
    shape: &TypeVariant<N>,
) -> Result<TypeVariant<M>, Stop>
    ensures out { IfOk result (λ out. out ≡ renamed_variant (R.becomes renamer.now) shape.now) }
    ensures defined { OnOk result (of_variant (by_reference (R.untargeted renamer.now)) shape.now ≡ []) }
    ensures err { IfErr result (NamesFirst (of_variant (by_reference (R.untargeted renamer.now)) shape.now)) }
{
    match shape {
        TypeVariant::String => Ok(TypeVariant::String),
        TypeVariant::Long => Ok(TypeVariant::Long),
        TypeVariant::Boolean => Ok(TypeVariant::Boolean),
        TypeVariant::Set { element } => {
            let element = rename_type(alloc, renamer, element.get())?;
            Ok(TypeVariant::Set {
                element: Boxed::new(alloc, element)?,
            })
        }
        TypeVariant::Record(fields) => {
            Ok(TypeVariant::Record(rename_record(alloc, renamer, fields)?))
        }
        TypeVariant::Entity { name } => Ok(TypeVariant::Entity {
            name: renamer.rename(alloc, ReferenceType::Entity, name)?,
        }),
        TypeVariant::EntityOrCommon { type_name } => Ok(TypeVariant::EntityOrCommon {
            type_name: renamer.rename(alloc, ReferenceType::CommonOrEntity, type_name)?,
        }),
        TypeVariant::Extension { name } => Ok(TypeVariant::Extension {
            name: name.clone_in(alloc)?,
        }),
    }
}

// A record type, with each name replaced.
#[cycle(rename)]
pub(crate) fn rename_record<N: NameText, M: NameText + Drop, R: Renamer<N, M>>(
    alloc: Global,
    renamer: &R,
    fields: &RecordType<N>,
) -> Result<RecordType<M>, Stop>
    ensures out { IfOk result (λ out. out ≡ renamed_record (R.becomes renamer.now) fields.now) }
    ensures defined { OnOk result (of_record (by_reference (R.untargeted renamer.now)) fields.now ≡ []) }
    ensures err { IfErr result (NamesFirst (of_record (by_reference (R.untargeted renamer.now)) fields.now)) }
{
    Ok(RecordType {
        attributes: Map::from_sorted_vec(rename_entries(
            alloc,
            renamer,
            fields.attributes.as_slice(),
        )?),
        additional_attributes: fields.additional_attributes,
    })
}

// The type of an attribute, with each name replaced.
#[cycle(rename)]
fn attribute_type<N: NameText, M: NameText + Drop, R: Renamer<N, M>>(
    alloc: Global,
    renamer: &R,
    ty: &Type<N>,
) -> Result<Type<M>, Stop>
    ensures out { IfOk result (λ out. out ≡ renamed (R.becomes renamer.now) ty.now) }
    ensures defined { OnOk result (of_type (by_reference (R.untargeted renamer.now)) ty.now ≡ []) }
    ensures err { IfErr result (NamesFirst (of_type (by_reference (R.untargeted renamer.now)) ty.now)) }
{
    match ty {
        Type::Variant { ty, loc } => reference_or_at(alloc, renamer, ty, *loc),
        Type::CommonTypeRef { .. } => rename_type(alloc, renamer, ty),
    }
}

// The type of a shape at a place. Most are references, which need no room for types of other shapes.
#[cycle(rename)]
fn reference_or_at<N: NameText, M: NameText + Drop, R: Renamer<N, M>>(
    alloc: Global,
    renamer: &R,
    shape: &TypeVariant<N>,
    loc: Option<Loc>,
) -> Result<Type<M>, Stop>
    ensures out { IfOk result (λ out. out ≡ renamed_at (R.becomes renamer.now) shape.now loc) }
    ensures defined { OnOk result (of_variant (by_reference (R.untargeted renamer.now)) shape.now ≡ []) }
    ensures err { IfErr result (NamesFirst (of_variant (by_reference (R.untargeted renamer.now)) shape.now)) }
{
    match shape {
        TypeVariant::EntityOrCommon { type_name } => renamer.rename_either(alloc, type_name, loc),
        _ => rename_at(alloc, renamer, shape, loc),
    }
}

// An attribute, with each name of its type replaced.
#[cycle(rename)]
pub(crate) fn rename_attribute<N: NameText, M: NameText + Drop, R: Renamer<N, M>>(
    alloc: Global,
    renamer: &R,
    attribute: &TypeOfAttribute<N>,
) -> Result<TypeOfAttribute<M>, Stop>
    ensures out { IfOk result (λ out. out ≡ renamed_attribute (R.becomes renamer.now) attribute.now) }
    ensures defined { OnOk result (of_attribute (by_reference (R.untargeted renamer.now)) attribute.now ≡ []) }
    ensures err { IfErr result (NamesFirst (of_attribute (by_reference (R.untargeted renamer.now)) attribute.now)) }
{
    Ok(TypeOfAttribute {
        ty: attribute_type(alloc, renamer, &attribute.ty)?,
        annotations: attribute.annotations.clone_in(alloc)?,
        required: attribute.required,
    })
}

// Attributes in order, with each name replaced.
#[cycle(rename)]
fn rename_entries<N: NameText, M: NameText + Drop, R: Renamer<N, M>>(
    alloc: Global,
    renamer: &R,
    entries: &[(Text, TypeOfAttribute<N>)],
) -> Result<Vec<(Text, TypeOfAttribute<M>)>, Stop>
    ensures out { IfOk result (λ out. out.items ≡ renamed_entries (R.becomes renamer.now) entries.now) }
    ensures defined { OnOk result (of_entries (by_reference (R.untargeted renamer.now)) entries.now ≡ []) }
    ensures err { IfErr result (NamesFirst (of_entries (by_reference (R.untargeted renamer.now)) entries.now)) }
{
    let mut out = Vec::with_capacity(alloc, entries.len())?;
    for (name, attribute) in entries {
        let name = name.clone_in(alloc)?;
        let attribute = rename_attribute(alloc, renamer, attribute)?;
        out.push((name, attribute))?;
    }
    Ok(out)
}
