// Calls of the builder that no run of the program makes: schemas of parts, copies of parts and of faults, and what is
// told of a text that is no schema.

use crate::fault_table::{fault_lines, refusal_lines};
use cedar_data::{Boxed, CloneIn, Diagnostic, List, Map, NonEmpty, Shared, Text};
use cedar_identifiers::{Eid, Name, RawName};
use cedar_names::{EntityUID, ExtensionTable};
use schema_build::{CedarSchemaError, RecoveryError, SchemaError, ToTextError, ValidatorSchema};
use schema_build_types::{
    Type, ValidatorActionId, ValidatorActionKind, ValidatorEntityType, ValidatorEntityTypeKind,
};
use schema_json::Fragment;
use schema_json_io::WriteJson;
use schema_tests_lines::{Wanted, answer_and_text, says};
use std::alloc::{AllocError, Global};

// The schema of the text, under the table of all extension types.
fn schema_of(alloc: Global, text: &str) -> Option<ValidatorSchema> {
    let table = ExtensionTable::all_available(alloc).ok()?;
    match ValidatorSchema::from_cedarschema_str(alloc, text, &table) {
        Ok((schema, _)) => Some(schema),
        Err(_) => None,
    }
}

// Does the answer say what the error tells of this source?
fn refusal_tells(alloc: Global, answer: &str, error: &CedarSchemaError, source: &str) -> bool {
    let mut wanted = Wanted::new(answer);
    wanted.text(error.text(alloc));
    wanted.labels(error.labels(alloc));
    wanted.advice(error.help(alloc, source));
    wanted.is_met()
}

// Is what the line says told of its text, which is no schema?
fn is_refused(alloc: Global, line: &str) -> bool {
    let (answer, text) = answer_and_text(line);
    let Ok(table) = ExtensionTable::all_available(alloc) else {
        return false;
    };
    match ValidatorSchema::from_cedarschema_str(alloc, text, &table) {
        Err(error) => refusal_tells(alloc, answer, &error, text),
        Ok(_) => false,
    }
}

#[test]
fn refusals_of_texts_are_told(rt: HostRuntime) {
    for line in refusal_lines().lines() {
        assert!(rt; is_refused(rt.alloc(), line), "{line}");
    }
}

// The fault of a schema that is written as a text, or in the deprecated form of JSON, which begins with a brace.
fn fault_of(alloc: Global, input: &str) -> Option<SchemaError> {
    let table = ExtensionTable::all_available(alloc).ok()?;
    if input.starts_with('{') {
        return ValidatorSchema::from_deprecated_json_str(alloc, input, &table).err();
    }
    match ValidatorSchema::from_cedarschema_str(alloc, input, &table) {
        Err(CedarSchemaError::Schema(fault)) => Some(fault),
        _ => None,
    }
}

// Does a copy of the fault say so?
fn copy_says(alloc: Global, fault: &SchemaError, wanted: &str) -> bool {
    match fault.clone_in(alloc) {
        Ok(copy) => says(copy.text(alloc), wanted),
        Err(_) => false,
    }
}

// Is the fault of the line's schema what the line says?
fn has_fault(alloc: Global, line: &str) -> bool {
    let (wanted, input) = answer_and_text(line);
    match fault_of(alloc, input) {
        Some(fault) => copy_says(alloc, &fault, wanted),
        None => false,
    }
}

#[test]
fn copies_of_faults_are_alike(rt: HostRuntime) {
    for line in fault_lines().lines() {
        assert!(rt; has_fault(rt.alloc(), line), "{line}");
    }
}

// Do three faults, one of them about no undefined type, join to what is said here?
fn join(alloc: Global, inputs: [&str; 3], wanted: &str) -> bool {
    let [first, second, third] = inputs;
    let (Some(head), Some(second), Some(third)) = (
        fault_of(alloc, first),
        fault_of(alloc, second),
        fault_of(alloc, third),
    ) else {
        return false;
    };
    let mut tail = Vec::new(alloc);
    if tail.push(second).is_err() || tail.push(third).is_err() {
        return false;
    }
    match SchemaError::join_nonempty(alloc, NonEmpty::from_parts(head, tail)) {
        Ok(joined) => says(joined.text(alloc), wanted),
        Err(_) => false,
    }
}

#[test]
fn faults_are_joined(rt: HostRuntime) {
    let inputs = [
        "type A = B; type B = A;",
        "entity A in X;",
        "entity A in Y;",
    ];
    assert!(rt; join(rt.alloc(), inputs, "failed to resolve types: X, Y"));
}

// Copies of the entity types.
fn copied_types(
    alloc: Global,
    schema: &ValidatorSchema,
) -> Result<Map<Name, ValidatorEntityType>, AllocError> {
    let mut copies = Vec::new(alloc);
    for entry in schema.entity_types() {
        copies.push((entry.name.clone_in(alloc)?, entry.ty.clone_in(alloc)?))?;
    }
    Map::from_entries(alloc, copies)
}

// Copies of the actions.
fn copied_actions(
    alloc: Global,
    schema: &ValidatorSchema,
) -> Result<Map<EntityUID, ValidatorActionId>, AllocError> {
    let mut copies = Vec::new(alloc);
    for entry in schema.actions() {
        copies.push((entry.uid.clone_in(alloc)?, entry.action.clone_in(alloc)?))?;
    }
    Map::from_entries(alloc, copies)
}

// Does the schema of copies of the parts mean what the schema means?
fn is_made_of_copies(alloc: Global, schema: &ValidatorSchema) -> bool {
    match (copied_types(alloc, schema), copied_actions(alloc, schema)) {
        (Ok(types), Ok(actions)) => match ValidatorSchema::from_parts(alloc, types, actions) {
            Ok(copy) => ValidatorSchema::meaning_eq(schema, &copy),
            Err(_) => false,
        },
        _ => false,
    }
}

// Does the schema of the canonical text mean what the schema means?
fn is_recovered(alloc: Global, schema: &ValidatorSchema) -> bool {
    match schema.to_cedar_schema(alloc) {
        Ok(text) => match schema_of(alloc, text.as_str()) {
            Some(again) => ValidatorSchema::meaning_eq(schema, &again),
            None => false,
        },
        Err(_) => false,
    }
}

// A schema with parts of each kind.
const PARTS: &str = "\
entity C enum [\"a\", \"b\"];
external entity D in B;
entity B;
entity A in [B, C] { x: Set<Bool>, y?: decimal, z: { u: B } } tags String;
action a;
external action b in a;
action c in a appliesTo { principal: A, resource: [A, B], context: { v: Long } };
";

#[test]
fn parts_make_the_schema_again(rt: HostRuntime) {
    let alloc = rt.alloc();
    let is_made = match schema_of(alloc, PARTS) {
        Some(schema) => is_made_of_copies(alloc, &schema) && is_recovered(alloc, &schema),
        None => false,
    };
    assert!(rt; is_made);
}

// Is the schema read again from the deprecated form, where the JSON of its fragment is of both forms?
fn is_read_from_value(alloc: Global, schema: &ValidatorSchema) -> bool {
    let table = ExtensionTable::none(alloc);
    let Ok(fragment) = schema.to_json_schema(alloc) else {
        return false;
    };
    let Ok(value) = fragment.to_json_value(alloc) else {
        return false;
    };
    match ValidatorSchema::from_deprecated_json_value(alloc, value, &table) {
        Ok(again) => ValidatorSchema::meaning_eq(schema, &again),
        Err(_) => false,
    }
}

// Has the recovered fragment no namespace?
fn has_no_namespace(fragment: Result<Fragment<RawName>, RecoveryError>) -> bool {
    match fragment {
        Ok(fragment) => fragment.0.as_slice().is_empty(),
        Err(_) => false,
    }
}

#[test]
fn schemas_are_read_from_values(rt: HostRuntime) {
    let alloc = rt.alloc();
    let is_read = match schema_of(alloc, "entity A in B; entity B;") {
        Some(schema) => is_read_from_value(alloc, &schema),
        None => false,
    };
    assert!(rt; is_read);
    assert!(rt; has_no_namespace(ValidatorSchema::empty(alloc).to_json_schema(alloc)));
}

// The name and an entity type of this name, with tags of sets of an unknown element.
fn unknown_element(alloc: Global) -> Option<(Name, ValidatorEntityType)> {
    let name = Name::from_normalized_str(alloc, "A").ok()?;
    let tags = Boxed::new(alloc, Type::Set { element: None }).ok()?;
    let kind = ValidatorEntityTypeKind::Standard {
        attributes: Map::new(alloc),
        more: false,
        tags: Some(tags),
    };
    let ancestors = List::new(alloc);
    Some((name, ValidatorEntityType { ancestors, kind }))
}

// The schema of the one entity type.
fn schema_of_type(
    alloc: Global,
    entry: (Name, ValidatorEntityType),
) -> Result<ValidatorSchema, SchemaError> {
    let mut entries = Vec::new(alloc);
    entries.push(entry)?;
    let types = Map::from_entries(alloc, entries)?;
    ValidatorSchema::from_parts(alloc, types, Map::new(alloc))
}

// Does a copy of the refusal of a fragment say so, and point to nothing?
fn no_fragment(alloc: Global, schema: &ValidatorSchema, wanted: &str) -> bool {
    match schema.to_json_schema(alloc) {
        Err(error) => match error.clone_in(alloc) {
            Ok(copy) => {
                says(copy.text(alloc), wanted)
                    && matches!(copy.labels(alloc), Ok(labels) if labels.is_empty())
            }
            Err(_) => false,
        },
        Ok(_) => false,
    }
}

// Does a copy of the refusal of a text say so, and point to nothing?
fn no_text(alloc: Global, schema: &ValidatorSchema, wanted: &str) -> bool {
    match schema.to_cedar_schema(alloc) {
        Err(error) => match error.clone_in(alloc) {
            Ok(copy) => {
                says(copy.text(alloc), wanted)
                    && matches!(copy.labels(alloc), Ok(labels) if labels.is_empty())
            }
            Err(_) => false,
        },
        Ok(_) => false,
    }
}

const UNKNOWN: &str = "Set with unknown element type not supported";

// Is the entity type told of that no text says?
fn unknown_element_is_told(alloc: Global) -> bool {
    let Some(entry) = unknown_element(alloc) else {
        return false;
    };
    match schema_of_type(alloc, entry) {
        Ok(schema) => no_fragment(alloc, &schema, UNKNOWN) && no_text(alloc, &schema, UNKNOWN),
        Err(_) => false,
    }
}

// Schemas in which a type would be captured. The lines of the table were made by the second program.
const CAPTURED: &str = "\
the type `Action` of the empty namespace is used in namespace `N` by entity type `E`, where it would be read as `N::Action`|action z; type T = Action; namespace N { action a; entity E { x: T }; }
the type `Action` of the empty namespace is used in namespace `N` by action `\"y\"`, where it would be read as `N::Action`|action z; type T = Action; namespace N { action a; action y appliesTo { principal: E, resource: E, context: { x: T } }; entity E; }
";

// Is what the line says told of the schema of its text?
fn is_captured(alloc: Global, line: &str) -> bool {
    let (wanted, text) = answer_and_text(line);
    match schema_of(alloc, text) {
        Some(schema) => no_text(alloc, &schema, wanted),
        None => false,
    }
}

#[test]
fn schemas_without_a_text_are_told(rt: HostRuntime) {
    assert!(rt; unknown_element_is_told(rt.alloc()));
    for line in CAPTURED.lines() {
        assert!(rt; is_captured(rt.alloc(), line), "{line}");
    }
}

// The name `A` and an enumerated entity type below `B`.
fn enum_below(alloc: Global) -> Option<(Name, ValidatorEntityType)> {
    let name = Name::from_normalized_str(alloc, "A").ok()?;
    let parent = Name::from_normalized_str(alloc, "B").ok()?;
    let mut ancestors = List::new(alloc);
    ancestors.push(Shared::new(alloc, parent).ok()?).ok()?;
    let choice = Eid(Text::from_str(alloc, "a").ok()?);
    let kind = ValidatorEntityTypeKind::Enum(NonEmpty::new(alloc, choice));
    Some((name, ValidatorEntityType { ancestors, kind }))
}

// Is the enumerated entity type refused so?
fn enum_below_is_refused(alloc: Global, wanted: &str) -> bool {
    let Some(entry) = enum_below(alloc) else {
        return false;
    };
    match schema_of_type(alloc, entry) {
        Err(fault) => copy_says(alloc, &fault, wanted),
        Ok(_) => false,
    }
}

// The name of an action whose type is no type of actions, and the action.
fn misnamed(alloc: Global) -> Option<(EntityUID, ValidatorActionId)> {
    let ty = Name::from_normalized_str(alloc, "Foo").ok()?;
    let eid = Eid(Text::from_str(alloc, "a").ok()?);
    let ancestors = List::new(alloc);
    let kind = ValidatorActionKind::External;
    Some((
        EntityUID { ty, eid, loc: None },
        ValidatorActionId { ancestors, kind },
    ))
}

// The schema of the one action.
fn schema_of_action(
    alloc: Global,
    entry: (EntityUID, ValidatorActionId),
) -> Result<ValidatorSchema, SchemaError> {
    let mut entries = Vec::new(alloc);
    entries.push(entry)?;
    let actions = Map::from_entries(alloc, entries)?;
    ValidatorSchema::from_parts(alloc, Map::new(alloc), actions)
}

// Is the action refused so?
fn misnamed_is_refused(alloc: Global, wanted: &str) -> bool {
    let Some(entry) = misnamed(alloc) else {
        return false;
    };
    match schema_of_action(alloc, entry) {
        Err(fault) => copy_says(alloc, &fault, wanted),
        Ok(_) => false,
    }
}

#[test]
fn parts_that_make_no_schema_are_told(rt: HostRuntime) {
    let below = "enum entity type `A` cannot be a descendant of `B`";
    assert!(rt; enum_below_is_refused(rt.alloc(), below));
    let misnamed = "action `Foo::\"a\"` has an entity type whose basename is not `Action`";
    assert!(rt; misnamed_is_refused(rt.alloc(), misnamed));
}
