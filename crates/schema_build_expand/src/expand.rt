ghost use Rattle.std.specs.Prelude.{All, IfOk};
ghost use Rattle.schema_json_walk.specs.Walk.{itself, parts, of_variant, of_entries};
ghost use Rattle.schema_build_expand.specs.Targets.{IsReady, AreExpanded, ExpandsTo, ShapeExpandsTo};
ghost use Rattle.schema_build_expand.specs.Targets.{ReferenceExpandsTo, IsReferenceReady, EntriesExpandTo};

use crate::meanings::{Meanings, Target};
use cedar_data::{Boxed, CloneIn, Map, NonEmpty, Text};
use cedar_identifiers::ReferenceType;
use schema_build_types::Type as BuiltType;
use schema_json::{Type, TypeOfAttribute, TypeVariant};
use std::alloc::{AllocError, Global};

/// What a type stands for that is written where these names are meant: every common type is replaced. What its
/// references mean is expanded before, and stands in `done` by its rank. It errs when out of memory.
#[cycle(expand)]
pub fn expand_type<N, R: Meanings<N>>(
    alloc: Global,
    names: &R,
    done: &[Option<BuiltType>],
    ty: &Type<N>,
) -> Result<BuiltType, AllocError>
    requires done { AreExpanded (R.scope names.now) done.now }
    requires ready { All (IsReady (R.scope names.now) done.now (R.place names.now)) (parts ty.now) }
    ensures { IfOk result (ExpandsTo (R.scope names.now) (R.place names.now) ty.now) }
{
    match ty {
        Type::CommonTypeRef { type_name, .. } => {
            expand_reference(alloc, names, done, ReferenceType::Common, type_name)
        }
        Type::Variant { ty, .. } => expand_variant(alloc, names, done, ty),
    }
}

// What a type of this shape stands for, at any place.
#[cycle(expand)]
fn expand_variant<N, R: Meanings<N>>(
    alloc: Global,
    names: &R,
    done: &[Option<BuiltType>],
    shape: &TypeVariant<N>,
) -> Result<BuiltType, AllocError>
    requires done { AreExpanded (R.scope names.now) done.now }
    requires ready { All (IsReady (R.scope names.now) done.now (R.place names.now)) (of_variant itself shape.now) }
    ensures { IfOk result (ShapeExpandsTo (R.scope names.now) (R.place names.now) shape.now) }
{
    match shape {
        TypeVariant::String => Ok(BuiltType::String),
        TypeVariant::Long => Ok(BuiltType::Long),
        TypeVariant::Boolean => Ok(BuiltType::AnyBool),
        TypeVariant::Set { element } => {
            let element = expand_type(alloc, names, done, element.get())?;
            Ok(BuiltType::Set {
                element: Some(Boxed::new(alloc, element)?),
            })
        }
        TypeVariant::Record(record) => {
            let attrs = expand_entries(alloc, names, done, record.attributes.as_slice())?;
            Ok(BuiltType::Record {
                attrs: Map::from_sorted_vec(attrs),
                more: false,
            })
        }
        TypeVariant::Entity { name } => {
            expand_reference(alloc, names, done, ReferenceType::Entity, name)
        }
        TypeVariant::EntityOrCommon { type_name } => {
            expand_reference(alloc, names, done, ReferenceType::CommonOrEntity, type_name)
        }
        TypeVariant::Extension { name } => Ok(BuiltType::Extension {
            name: name.clone_in(alloc)?,
        }),
    }
}

// What a reference stands for.
fn expand_reference<N, R: Meanings<N>>(
    alloc: Global,
    names: &R,
    done: &[Option<BuiltType>],
    kind: ReferenceType,
    name: &N,
) -> Result<BuiltType, AllocError>
    requires done { AreExpanded (R.scope names.now) done.now }
    requires ready { IsReferenceReady (R.scope names.now) done.now (R.place names.now) kind name.now }
    ensures { IfOk result (ReferenceExpandsTo (R.scope names.now) (R.place names.now) kind name.now) }
{
    match names.target(alloc, kind, name)? {
        Target::Entity(name) => Ok(BuiltType::Entity {
            names: Boxed::new(alloc, NonEmpty::new(alloc, name))?,
        }),
        Target::Common(rank) => match &done[rank] {
            Some(ty) => ty.clone_in(alloc),
            None => unreachable!(),
        },
        Target::Builtin(ty) => Ok(ty),
    }
}

// The attributes, in order, each with what its type stands for.
#[cycle(expand)]
fn expand_entries<N, R: Meanings<N>>(
    alloc: Global,
    names: &R,
    done: &[Option<BuiltType>],
    entries: &[(Text, TypeOfAttribute<N>)],
) -> Result<Vec<(Text, (BuiltType, bool))>, AllocError>
    requires done { AreExpanded (R.scope names.now) done.now }
    requires ready { All (IsReady (R.scope names.now) done.now (R.place names.now)) (of_entries itself entries.now) }
    ensures { IfOk result (λ attrs. EntriesExpandTo (R.scope names.now) (R.place names.now) entries.now attrs.items) }
{
    let mut attrs = Vec::with_capacity(alloc, entries.len())?;
    for (name, attribute) in entries {
        let name = name.clone_in(alloc)?;
        let ty = expand_type(alloc, names, done, &attribute.ty)?;
        attrs.push((name, (ty, attribute.required)))?;
    }
    Ok(attrs)
}
