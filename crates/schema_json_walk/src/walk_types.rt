ghost use Rattle.std.specs.Prelude.{OnOk, IfErr};
ghost use Rattle.std.specs.List.{FoldsTo};
ghost use Rattle.schema_json_walk.specs.Visits.{StopsAmong};
ghost use Rattle.schema_json_walk.specs.Walk.{itself, of_variant, of_record, of_entries, parts};

use crate::lent_part::LentPart;
use crate::visitor::{Visitor, meet, meet_where};
use cedar_data::Text;
use cedar_identifiers::{Name, ReferenceType};
use schema_json::{RecordType, Type, TypeOfAttribute, TypeVariant};

/// Tells the visitor each part of the type, in order, until it refuses one.
#[cycle(walk)]
pub fn walk_type<'a, N, V: Visitor<N>>(
    visitor: &mut V,
    ns: &'a Option<Name>,
    ty: &'a Type<N>,
) -> Result<(), V::Refusal>
    ensures taken { OnOk result (FoldsTo (V.takes ns.now) visitor.old (parts ty.now) visitor.new) }
    ensures refused { IfErr result (StopsAmong (V.takes ns.now) (V.refuses ns.now) visitor.old (parts ty.now)) }
{
    match ty {
        Type::Variant { ty, .. } => walk_variant(visitor, ns, ty),
        Type::CommonTypeRef { type_name, .. } => {
            let kind = ReferenceType::Common;
            let name = type_name;
            meet(visitor, ns, LentPart::TypeReference { kind, name })
        }
    }
}

/// Tells the visitor each part of a type of this shape.
#[cycle(walk)]
pub fn walk_variant<'a, N, V: Visitor<N>>(
    visitor: &mut V,
    ns: &'a Option<Name>,
    shape: &'a TypeVariant<N>,
) -> Result<(), V::Refusal>
    ensures taken { OnOk result (FoldsTo (V.takes ns.now) visitor.old (of_variant itself shape.now) visitor.new) }
    ensures refused { IfErr result (StopsAmong (V.takes ns.now) (V.refuses ns.now) visitor.old
        (of_variant itself shape.now)) }
{
    match shape {
        TypeVariant::Set { element } => walk_type(visitor, ns, element.get()),
        TypeVariant::Record(fields) => walk_record(visitor, ns, fields),
        TypeVariant::Entity { name } => {
            let kind = ReferenceType::Entity;
            meet(visitor, ns, LentPart::TypeReference { kind, name })
        }
        TypeVariant::EntityOrCommon { type_name } => {
            let kind = ReferenceType::CommonOrEntity;
            let name = type_name;
            meet(visitor, ns, LentPart::TypeReference { kind, name })
        }
        TypeVariant::Extension { name } => meet(visitor, ns, LentPart::ExtensionType { name }),
        TypeVariant::String | TypeVariant::Long | TypeVariant::Boolean => Ok(()),
    }
}

// Tells the visitor each part of the record, and before them that it is open, if it is.
#[cycle(walk)]
fn walk_record<'a, N, V: Visitor<N>>(
    visitor: &mut V,
    ns: &'a Option<Name>,
    fields: &'a RecordType<N>,
) -> Result<(), V::Refusal>
    ensures taken { OnOk result (FoldsTo (V.takes ns.now) visitor.old (of_record itself fields.now) visitor.new) }
    ensures refused { IfErr result (StopsAmong (V.takes ns.now) (V.refuses ns.now) visitor.old
        (of_record itself fields.now)) }
{
    meet_where(
        visitor,
        ns,
        fields.additional_attributes,
        LentPart::OpenRecord,
    )?;
    walk_entries(visitor, ns, fields.attributes.as_slice())
}

// Tells the visitor each part of the attributes, in order.
#[cycle(walk)]
fn walk_entries<'a, N, V: Visitor<N>>(
    visitor: &mut V,
    ns: &'a Option<Name>,
    entries: &'a [(Text, TypeOfAttribute<N>)],
) -> Result<(), V::Refusal>
    ensures taken { OnOk result (FoldsTo (V.takes ns.now) visitor.old (of_entries itself entries.now) visitor.new) }
    ensures refused { IfErr result (StopsAmong (V.takes ns.now) (V.refuses ns.now) visitor.old
        (of_entries itself entries.now)) }
{
    for (_, attribute) in entries {
        walk_type(visitor, ns, &attribute.ty)?;
    }
    Ok(())
}
