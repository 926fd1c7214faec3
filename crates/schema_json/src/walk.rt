ghost use Rattle.std.specs.Prelude.{◌≡◌, ◌++◌, map, IfOk, OnOk};
ghost use Rattle.schema_json.specs.Walk.{references, variant_references, entry_references};

use crate::types::{Type, TypeOfAttribute, TypeVariant};
use cedar_data::Text;
use std::alloc::{AllocError, Global};

impl<N> Type<N> {
    /// The names that stand where a common type must or may, in the order of the walk: attributes by their names.
    pub fn common_type_references(&self, alloc: Global) -> Result<Vec<&N>, AllocError>
        ensures { IfOk result (λ found. map (λ name. name.now) found.items ≡ references self.now) }
    {
        let mut found = Vec::new(alloc);
        gather(self, &mut found)?;
        Ok(found)
    }
}

// Adds those of a type.
#[cycle(gather)]
fn gather<'a, N>(ty: &'a Type<N>, found: &mut Vec<&'a N>) -> Result<(), AllocError>
    ensures { OnOk result (map (λ name. name.now) found.new.items ≡ map (λ name. name.now) found.old.items
        ++ references ty.now) }
{
    match ty {
        Type::Variant { ty, .. } => gather_variant(ty, found),
        Type::CommonTypeRef { type_name, .. } => {
            found.push(type_name)?;
            Ok(())
        }
    }
}

// Adds those of a shape.
#[cycle(gather)]
fn gather_variant<'a, N>(ty: &'a TypeVariant<N>, found: &mut Vec<&'a N>) -> Result<(), AllocError>
    ensures { OnOk result (map (λ name. name.now) found.new.items ≡ map (λ name. name.now) found.old.items
        ++ variant_references ty.now) }
{
    match ty {
        TypeVariant::Set { element } => gather(element.get(), found),
        TypeVariant::Record(record) => gather_entries(record.attributes.as_slice(), found),
        TypeVariant::EntityOrCommon { type_name } => {
            found.push(type_name)?;
            Ok(())
        }
        TypeVariant::String
        | TypeVariant::Long
        | TypeVariant::Boolean
        | TypeVariant::Entity { .. }
        | TypeVariant::Extension { .. } => Ok(()),
    }
}

// Adds those of the attributes, in order.
#[cycle(gather)]
fn gather_entries<'a, N>(
    entries: &'a [(Text, TypeOfAttribute<N>)],
    found: &mut Vec<&'a N>,
) -> Result<(), AllocError>
    ensures { OnOk result (map (λ name. name.now) found.new.items ≡ map (λ name. name.now) found.old.items
        ++ entry_references entries.now) }
{
    for (_, attribute) in entries {
        gather(&attribute.ty, found)?;
    }
    Ok(())
}
