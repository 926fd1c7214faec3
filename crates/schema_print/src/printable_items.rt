ghost use Rattle.std.specs.Prelude.{◌≡◌, not, Some};
ghost use Rattle.std.specs.List.{list_all, list_any};
ghost use Rattle.schema_json.specs.Keywords.{is_keyword_name};
ghost use Rattle.schema_print.specs.Collisions.{is_shapeless, names_entity_type};
ghost use Rattle.schema_print.specs.Printable.{is_record_or_common, has_whole_targets, is_annotated_where_named};
ghost use Rattle.schema_print.specs.PrintableTests.{passes_action, passes_names, passes_types, passes_items};
ghost use Rattle.schema_print.specs.PrintableTests.{passes_block, has_distinct_names};

use crate::unprintable::{is_entity_type, is_record, is_shapeless};
use cedar_data::Text;
use cedar_identifiers::{Annotations, Name, RawName, UnreservedId};
use schema_json::{
    ActionType, ApplySpec, CommonType, CommonTypeId, EntityType, NamespaceDefinition, Type,
    is_keyword_name,
};

// Whether each namespace is printable, but for what the walk of its parts tells.
pub(crate) fn are_printable_namespaces(
    entries: &[(Option<Name>, NamespaceDefinition<RawName>)],
) -> bool
    ensures { result ≡ list_all (λ e. passes_block e.0 e.1) entries.now }
{
    for (name, namespace) in entries {
        if !is_printable_namespace(name, namespace) {
            return false;
        }
    }
    true
}

// Whether the namespace is printable.
fn is_printable_namespace(name: &Option<Name>, namespace: &NamespaceDefinition<RawName>) -> bool
    ensures { result ≡ passes_block name.now namespace.now }
{
    has_printable_names(name, namespace) && has_printable_items(namespace)
}

// Whether the empty namespace has no annotations, and no name of a named one stands for two things.
fn has_printable_names(name: &Option<Name>, namespace: &NamespaceDefinition<RawName>) -> bool
    ensures { result ≡ passes_names name.now namespace.now }
{
    is_annotated_where_named(name, &namespace.annotations) && has_distinct_names(name, namespace)
}

// Whether the types and the actions of the namespace are printable.
fn has_printable_items(namespace: &NamespaceDefinition<RawName>) -> bool
    ensures { result ≡ passes_items namespace.now }
{
    has_printable_types(namespace) && are_printable_actions(namespace.actions.as_slice())
}

// Whether shapes are records, and common types have names of their own.
fn has_printable_types(namespace: &NamespaceDefinition<RawName>) -> bool
    ensures { result ≡ passes_types namespace.now }
{
    have_record_shapes(namespace.entity_types.as_slice())
        && are_no_keywords(namespace.common_types.as_slice())
}

// Whether the empty namespace has no annotations.
fn is_annotated_where_named(name: &Option<Name>, annotations: &Annotations) -> bool
    ensures { result ≡ is_annotated_where_named name.now annotations.now }
{
    match name {
        None => annotations.0.as_slice().is_empty(),
        Some(_) => true,
    }
}

// Whether no name of a named namespace stands for two things.
fn has_distinct_names(name: &Option<Name>, namespace: &NamespaceDefinition<RawName>) -> bool
    ensures { result ≡ has_distinct_names name.now namespace.now }
{
    match name {
        None => true,
        Some(_) => !has_repeated_name(namespace, namespace.common_types.as_slice()),
    }
}

// Whether one of the common types has the name of an entity type of the namespace.
fn has_repeated_name(
    namespace: &NamespaceDefinition<RawName>,
    commons: &[(CommonTypeId, CommonType<RawName>)],
) -> bool
    ensures { result ≡ list_any (λ c. names_entity_type namespace.now.entity_types c.0.id.id.text) commons.now }
{
    for (id, _) in commons {
        if is_entity_type(namespace, &id.id) {
            return true;
        }
    }
    false
}

// Whether the shape of each entity type is a record.
fn have_record_shapes(entity_types: &[(UnreservedId, EntityType<RawName>)]) -> bool
    ensures { result ≡ list_all (λ t. not (is_shapeless t.1)) entity_types.now }
{
    for (_, entity_type) in entity_types {
        if is_shapeless(entity_type) {
            return false;
        }
    }
    true
}

// Whether no common type has one of the eight words as its name.
fn are_no_keywords(commons: &[(CommonTypeId, CommonType<RawName>)]) -> bool
    ensures { result ≡ list_all (λ c. not (is_keyword_name c.0.id.id.text)) commons.now }
{
    for (id, _) in commons {
        if is_keyword_name(id.id.as_str()) {
            return false;
        }
    }
    true
}

// Whether what each action applies to is printable.
fn are_printable_actions(actions: &[(Text, ActionType<RawName>)]) -> bool
    ensures { result ≡ list_all (λ a. passes_action a.1) actions.now }
{
    for (_, action) in actions {
        if !is_printable_action(action) {
            return false;
        }
    }
    true
}

// Whether what the action applies to is printable.
fn is_printable_action(action: &ActionType<RawName>) -> bool
    ensures { result ≡ passes_action action.now }
{
    match &action.applies_to {
        None => true,
        Some(spec) => is_record_or_common(&spec.context.0) && has_whole_targets(spec),
    }
}

// Whether the context is a record or a reference to a common type.
fn is_record_or_common(context: &Type<RawName>) -> bool
    ensures { result ≡ is_record_or_common context.now }
{
    match context {
        Type::Variant { .. } => is_record(context),
        Type::CommonTypeRef { .. } => true,
    }
}

// Whether there are both principals and resources, or neither and the empty context.
fn has_whole_targets(spec: &ApplySpec<RawName>) -> bool
    ensures { result ≡ has_whole_targets (Some spec.now) }
{
    let principals = spec.principal_types.as_slice();
    let resources = spec.resource_types.as_slice();
    match (principals.is_empty(), resources.is_empty()) {
        (true, true) => spec.context.is_empty_record(),
        (false, false) => true,
        _ => false,
    }
}
