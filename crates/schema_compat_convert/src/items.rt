// Common types, entity types and actions.
ghost use Rattle.std.specs.Prelude.{◌≡◌, [], ◌∷◌, IfOk};
ghost use Rattle.std.specs.List.{AllZip};
ghost use Rattle.std.specs.Option.{option_map_or};
ghost use Rattle.schema_json_shapes.specs.Reads.{ReadsValue};
ghost use Rattle.schema_compat_convert.specs.Demands.{asks_type, asks_entity, asks_action, asks_apply, asks_field};
ghost use Rattle.schema_compat_convert.specs.Converted.{CommonTypeBecomes, EntityTypeBecomes, ActionBecomes};
ghost use Rattle.schema_compat_convert.specs.Converted.{ApplyBecomes, UidBecomes, OptionBecomes, no_names};

use crate::convert::Convert;
use crate::types::convert_type;
use cedar_data::{Boxed, List, Set, Text};
use cedar_identifiers::{Annotations, RawName};
use schema_compat_types::{
    ActionEntityUID as OldUid, ActionType as OldAction, ApplySpec as OldApply,
    AttributesOrContext as OldContext, EntityType as OldEntityType, SchemaType,
};
use schema_json::{
    ActionEntityUID, ActionType, ApplySpec, AttributesOrContext, CommonType, EntityType,
    EntityTypeKind, StandardEntityType,
};
use schema_json_shapes::ShapeFault;
use std::alloc::{AllocError, Global};

impl Convert for SchemaType {
    type Out = CommonType<RawName>;

    ghost asks = { asks_type };

    ghost Becomes = { CommonTypeBecomes };

    fn convert(self, alloc: Global) -> Result<CommonType<RawName>, ShapeFault> {
        Ok(CommonType {
            ty: convert_type(alloc, self)?,
            annotations: Annotations::new(alloc),
            loc: None,
        })
    }
}

impl Convert for OldEntityType {
    type Out = EntityType<RawName>;

    ghost asks = { asks_entity };

    ghost Becomes = { EntityTypeBecomes };

    fn convert(self, alloc: Global) -> Result<EntityType<RawName>, ShapeFault> {
        let OldEntityType {
            member_of_types,
            shape,
        } = self;
        let OldContext(shape) = shape;
        let shape = AttributesOrContext(convert_type(alloc, shape)?);
        let standard = StandardEntityType {
            member_of_types,
            shape,
            tags: None,
        };
        Ok(EntityType {
            kind: EntityTypeKind::Standard(Boxed::new(alloc, standard)?),
            external: false,
            annotations: Annotations::new(alloc),
            loc: None,
        })
    }
}

impl Convert for OldAction {
    type Out = ActionType<RawName>;

    ghost asks = { asks_action };

    ghost Becomes = { ActionBecomes };

    fn convert(self, alloc: Global) -> Result<ActionType<RawName>, ShapeFault> {
        let OldAction {
            attributes,
            applies_to,
            member_of,
        } = self;
        Ok(ActionType {
            attributes: no_names(alloc, attributes),
            applies_to: convert_applies_to(alloc, applies_to)?,
            member_of: convert_member_of(alloc, member_of)?,
            external: false,
            annotations: Annotations::new(alloc),
            loc: None,
        })
    }
}

// No name, where attributes are written.
fn no_names(alloc: Global, attributes: Option<Set<Text>>) -> Option<Set<Text>>
    ensures { result ≡ no_names attributes }
{
    match attributes {
        Some(_) => Some(Set::new(alloc)),
        None => None,
    }
}

// What an action applies to, where that is written.
fn convert_applies_to(
    alloc: Global,
    applies_to: Option<OldApply>,
) -> Result<Option<ApplySpec<RawName>>, ShapeFault>
    ensures { ReadsValue result (option_map_or asks_apply applies_to []) (OptionBecomes ApplyBecomes applies_to) }
{
    match applies_to {
        Some(applies_to) => Ok(Some(convert_apply(alloc, applies_to)?)),
        None => Ok(None),
    }
}

// What an action applies to, which has both lists.
fn convert_apply(alloc: Global, applies_to: OldApply) -> Result<ApplySpec<RawName>, ShapeFault>
    ensures { ReadsValue result (asks_apply applies_to) (ApplyBecomes applies_to) }
{
    let OldApply {
        resource_types,
        principal_types,
        context,
    } = applies_to;
    let resource_types = present(alloc, resource_types, "resourceTypes")?;
    let principal_types = present(alloc, principal_types, "principalTypes")?;
    let OldContext(context) = context;
    let context = AttributesOrContext(convert_type(alloc, context)?);
    Ok(ApplySpec {
        resource_types,
        principal_types,
        context,
    })
}

// The list of a field, which is there.
fn present(
    alloc: Global,
    names: Option<List<RawName>>,
    field: &str,
) -> Result<List<RawName>, ShapeFault>
    ensures { ReadsValue result (asks_field field.now names ∷ []) (λ out. names ≡ Some out) }
{
    match names {
        Some(names) => Ok(names),
        None => Err(ShapeFault::MissingField(Text::from_str(alloc, field)?)),
    }
}

// The parents of an action, where they are written.
fn convert_member_of(
    alloc: Global,
    member_of: Option<List<OldUid>>,
) -> Result<Option<List<ActionEntityUID<RawName>>>, AllocError>
    ensures { IfOk result (OptionBecomes (AllZip UidBecomes) member_of) }
{
    match member_of {
        Some(uids) => Ok(Some(convert_uids(alloc, uids)?)),
        None => Ok(None),
    }
}

// References to actions, in order.
fn convert_uids(
    alloc: Global,
    uids: List<OldUid>,
) -> Result<List<ActionEntityUID<RawName>>, AllocError>
    ensures { IfOk result (AllZip UidBecomes uids) }
{
    let mut out = List::new(alloc);
    for uid in uids.into_vec() {
        let OldUid { id, ty } = uid;
        out.push(ActionEntityUID::new(ty, id))?;
    }
    Ok(out)
}
