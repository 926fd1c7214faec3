// Texts read as names.
ghost use Rattle.std.specs.Prelude.{◌≡◌, [], ◌∷◌, IfOk};
ghost use Rattle.std.specs.Str.{chars};
ghost use Rattle.serde_json.specs.View.{view, items_view};
ghost use Rattle.cedar_identifiers.specs.NameReading.{NameFaultOf};
ghost use Rattle.cedar_identifiers.specs.declared.name_kind.NameKind.TheVariants as kind;
ghost use Rattle.schema_json_shapes.specs.Walk.{named, names, is_name, kind_of, role_text, demands, item_demands};
ghost use Rattle.schema_json_shapes.specs.Said.{IsRawName, IsId, IsAnyId, IsNamed, IsWordNamed, IsList, AreItems};
ghost use Rattle.schema_json_shapes.specs.Shapes.{IsNamespaceName};
ghost use Rattle.schema_json_shapes.specs.Reads.{ReadsValue, IsDemandFault};

use crate::leaves::wrong_type;
use crate::name_role::NameRole;
use crate::shape_fault::ShapeFault;
use cedar_data::{List, Text};
use cedar_identifiers::laws::one_reading;
use cedar_identifiers::{AnyId, Name, NameFault, RawName, UnreservedId};
use serde_json::Value;
use std::alloc::{AllocError, Global};

// The fault of a text that is no name of its role, for this cause.
fn bad_name(alloc: Global, role: NameRole, text: &str, fault: NameFault) -> ShapeFault
    requires { NameFaultOf (kind_of role) text.now fault }
    ensures { IsDemandFault (is_name role text.now ∷ []) result }
{
    one_reading(text);
    if let NameFault::Memory = fault {
        return ShapeFault::Memory;
    }
    match copied(alloc, role, text) {
        Ok((role, text)) => ShapeFault::BadName { role, text, fault },
        Err(_) => ShapeFault::Memory,
    }
}

fn copied(alloc: Global, role: NameRole, text: &str) -> Result<(Text, Text), AllocError>
    ensures { IfOk result (λ p. (p.0 ≡ chars (role_text role)) × (p.1 ≡ chars text.now)) }
{
    let role = Text::from_str(alloc, role.as_str())?;
    let text = Text::from_str(alloc, text)?;
    Ok((role, text))
}

/// A name as it is written, in a role of such names.
pub fn read_raw_name(alloc: Global, role: NameRole, text: &str) -> Result<RawName, ShapeFault>
    requires { kind_of role ≡ kind.InternalName }
    ensures { ReadsValue result (is_name role text.now ∷ []) (IsRawName text.now) }
{
    match RawName::from_normalized_str(alloc, text) {
        Ok(name) => Ok(name),
        Err(fault) => Err(bad_name(alloc, role, text, fault)),
    }
}

/// A word that may be declared, in a role of such words.
pub fn read_id(alloc: Global, role: NameRole, text: &str) -> Result<UnreservedId, ShapeFault>
    requires { kind_of role ≡ kind.UnreservedId }
    ensures { ReadsValue result (is_name role text.now ∷ []) (IsId text.now) }
{
    match UnreservedId::from_normalized_str(alloc, text) {
        Ok(id) => Ok(id),
        Err(fault) => Err(bad_name(alloc, role, text, fault)),
    }
}

/// The key of an annotation that the text is, or why it is none.
pub fn read_any_id(alloc: Global, text: &str) -> Result<AnyId, ShapeFault>
    ensures { ReadsValue result (is_name NameRole.Annotation text.now ∷ []) (IsAnyId text.now) }
{
    match AnyId::from_normalized_str(alloc, text) {
        Ok(id) => Ok(id),
        Err(fault) => Err(bad_name(alloc, NameRole::Annotation, text, fault)),
    }
}

/// The name of a namespace that the text is, or why it is none.
pub fn read_namespace_name(alloc: Global, text: &str) -> Result<Name, ShapeFault>
    ensures { ReadsValue result (is_name NameRole.Namespace text.now ∷ []) (IsNamespaceName text.now) }
{
    match Name::from_normalized_str(alloc, text) {
        Ok(name) => Ok(name),
        Err(fault) => Err(bad_name(alloc, NameRole::Namespace, text, fault)),
    }
}

/// The name that a value is, in a role of names as they are written.
pub(crate) fn read_named(
    alloc: Global,
    role: NameRole,
    value: &Value,
    label: &str,
) -> Result<RawName, ShapeFault>
    requires { kind_of role ≡ kind.InternalName }
    ensures { ReadsValue result (demands (named role) label.now (view value.now)) (IsNamed (view value.now)) }
{
    match value {
        Value::String(text) => read_raw_name(alloc, role, text.as_str()),
        _ => Err(wrong_type(alloc, label)),
    }
}

/// The word that a value is, in a role of words that may be declared.
pub(crate) fn read_word(
    alloc: Global,
    role: NameRole,
    value: &Value,
    label: &str,
) -> Result<UnreservedId, ShapeFault>
    requires { kind_of role ≡ kind.UnreservedId }
    ensures { ReadsValue result (demands (named role) label.now (view value.now)) (IsWordNamed (view value.now)) }
{
    match value {
        Value::String(text) => read_id(alloc, role, text.as_str()),
        _ => Err(wrong_type(alloc, label)),
    }
}

/// The names that a list says, or its first fault, under the name `label`.
pub fn read_names(alloc: Global, value: &Value, label: &str) -> Result<List<RawName>, ShapeFault>
    ensures { ReadsValue result (demands names label.now (view value.now)) (IsList IsNamed (view value.now)) }
{
    match value {
        Value::Array(items) => read_name_items(alloc, items, label),
        _ => Err(wrong_type(alloc, label)),
    }
}

fn read_name_items(
    alloc: Global,
    items: &Vec<Value>,
    label: &str,
) -> Result<List<RawName>, ShapeFault>
    ensures { ReadsValue result (item_demands (named NameRole.Name) label.now (items_view items.now.items))
        (AreItems IsNamed (items_view items.now.items)) }
{
    let mut found = List::new(alloc);
    for item in items {
        let name = read_named(alloc, NameRole::Name, item, label)?;
        found.push(name)?;
    }
    Ok(found)
}
