// The front end used as a library. A schema is read, its fragment is printed, so is the fragment that is recovered of
// the built schema, the types above a type are asked for, and a text that is no schema is refused.

use cedar_data::{Diagnostic, Shared, Text};
use cedar_identifiers::{Name, NameText, RawName};
use cedar_names::ExtensionTable;
use schema_build::{CedarSchemaError, FromCedarSchema, ValidatorSchema};
use schema_json::Fragment;
use schema_print::ToCedarSchema;
use std::alloc::Global;

const SCHEMA: &str = "\
namespace Photos {
  type Size = { width: Long, height: Long };
  entity Group in Group;
  entity User in Group;
  entity Photo = { owner: User, size?: Size };
  action view appliesTo { principal: User, resource: Photo };
}
";

// What is shown. The two texts and the refusal are what a second program says of the same schemas, and the line between
// them is the parent that the schema writes.
const SHOWN: &str = "\
namespace Photos {
  type Size = {
    height: Long,
    width: Long,
  };

  entity Group in [Group];

  entity Photo = {
    owner: User,
    size?: Size,
  };

  entity User in [Group];

  action \"view\" appliesTo {
    principal: [User],
    resource: [Photo],
    context: {},
  };
}
namespace Photos {
  entity Group in [Photos::Group];

  entity Photo = {
    owner: Photos::User,
    size?: {
      height: __cedar::Long,
      width: __cedar::Long,
    },
  };

  entity User in [Photos::Group];

  action \"view\" appliesTo {
    principal: [Photos::User],
    resource: [Photos::Photo],
    context: {},
  };
}
Photos::User is in Photos::Group
failed to resolve type: Gruop
";

const NO_SCHEMA: &str = "entity User in Gruop; entity Group;";

// The fragment of the schema, printed. There is none where memory is wanted.
fn printed(alloc: Global, table: &ExtensionTable) -> Option<Text> {
    let (fragment, _) = Fragment::<RawName>::from_cedarschema_str(alloc, SCHEMA, table).ok()?;
    fragment.to_cedarschema(alloc).ok()
}

// The fragment that is recovered of the schema, printed: names in full, and no common type. There is none where
// memory is wanted.
fn recovered(alloc: Global, table: &ExtensionTable) -> Option<Text> {
    let (schema, _) = ValidatorSchema::from_cedarschema_str(alloc, SCHEMA, table).ok()?;
    let fragment = schema.to_json_schema(alloc).ok()?;
    fragment.to_cedarschema(alloc).ok()
}

// The types above the one of this name.
fn types_above<'a>(schema: &'a ValidatorSchema, name: &Name) -> &'a [Shared<Name>] {
    for entry in schema.entity_types() {
        if entry.name == *name {
            return entry.ty.ancestors.as_slice();
        }
    }
    &[]
}

// A line for each type above `Photos::User`.
fn lines_of_types_above_users(alloc: Global, table: &ExtensionTable) -> Option<Text> {
    let (schema, _) = ValidatorSchema::from_cedarschema_str(alloc, SCHEMA, table).ok()?;
    let user = Name::from_normalized_str(alloc, "Photos::User").ok()?;
    let mut lines = Text::new(alloc);
    for name in types_above(&schema, &user) {
        lines.push_str("Photos::User is in ").ok()?;
        lines.push_str(name.get().text(alloc).ok()?.as_str()).ok()?;
        lines.push_str("\n").ok()?;
    }
    Some(lines)
}

// What is told of a text that is no schema.
fn refusal(alloc: Global, table: &ExtensionTable) -> Option<Text> {
    match ValidatorSchema::from_cedarschema_str(alloc, NO_SCHEMA, table) {
        Ok(_) => None,
        Err(CedarSchemaError::Memory) => None,
        Err(error) => error.text(alloc).ok(),
    }
}

// All four, each behind the one before.
fn shown(alloc: Global) -> Option<Text> {
    let table = ExtensionTable::all_available(alloc).ok()?;
    let mut text = printed(alloc, &table)?;
    text.push_str(recovered(alloc, &table)?.as_str()).ok()?;
    text.push_str(lines_of_types_above_users(alloc, &table)?.as_str())
        .ok()?;
    text.push_str(refusal(alloc, &table)?.as_str()).ok()?;
    text.push_str("\n").ok()?;
    Some(text)
}

#[test]
fn all_four_are_shown(rt: HostRuntime) {
    let is_shown = match shown(rt.alloc()) {
        Some(text) => text.as_str() == SHOWN,
        None => false,
    };
    assert!(rt; is_shown);
}
