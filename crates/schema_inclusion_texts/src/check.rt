ghost use Rattle.std.specs.Prelude.{◌≡◌, ℕ, List, IfOk, MatchResult};
ghost use Rattle.std.specs.Option.{option_map};
ghost use Rattle.schema_build.specs.Texts.{IsTextError};
ghost use Rattle.schema_inclusion_values.specs.Seen.{schema_value};
ghost use Rattle.schema_inclusion_texts.specs.Builds.{BuildsText, lost_between};
ghost use Rattle.cedar_names.specs.declared.extension_table.ExtensionTable.{ExtensionTable};
ghost use Rattle.schema_inclusion_texts.specs.Inclusions.{IsInclusionAnswer, HasMeaning, IsInclusionRefusal};
ghost use Rattle.schema_inclusion_texts.specs.Inclusions.{value_found};

use crate::errors::InclusionError;
use cedar_names::ExtensionTable;
use laws_inclusion::laws::meanings_of_texts_are_settled;
use schema_build::{CedarSchemaError, ValidatorSchema};
use schema_build_text::laws::meanings_are_read_back;
use schema_inclusion_check::laws::{
    the_first_lost_is_about_the_same, the_first_lost_of_built_schemas_is_found,
};
use schema_inclusion_check::{Lent, lost_between};
use schema_inclusion_values::SchemaValue;
use std::alloc::{AllocError, Global};

/// Whether a new schema admits all that an old one does.
#[derive(Drop)]
pub enum Inclusion {
    /// Each value that the old schema admits is admitted by the new one.
    Yes,
    /// The old schema admits this value, and the new one does not.
    No(SchemaValue),
}

// The schema of a text.
fn built(
    alloc: Global,
    text: &str,
    table: &ExtensionTable,
) -> Result<ValidatorSchema, CedarSchemaError>
    ensures { MatchResult result (BuildsText text.now table.now) (IsTextError text.now table.now) }
{
    match ValidatorSchema::from_cedarschema_str(alloc, text, table) {
        Ok((schema, _warnings)) => Ok(schema),
        Err(error) => Err(error),
    }
}

// The first value that the old schema admits and the new one does not.
fn lost(
    alloc: Global,
    old: &ValidatorSchema,
    new: &ValidatorSchema,
) -> Result<Option<SchemaValue>, AllocError>
    ensures { IfOk result (λ found. option_map schema_value found ≡ lost_between old.now new.now) }
{
    let old = Lent {
        entities: old.entity_types(),
        actions: old.actions(),
    };
    let new = Lent {
        entities: new.entity_types(),
        actions: new.actions(),
    };
    lost_between(alloc, &old, &new)
}

// Why two texts are not compared where the old one is refused.
fn old_refusal(error: CedarSchemaError) -> InclusionError
    ensures { (old new : List ℕ) (table : ExtensionTable) → IsTextError old table error
        → IsInclusionRefusal old new table result }
{
    match error {
        CedarSchemaError::Memory => InclusionError::Memory,
        CedarSchemaError::Schema(fault) => InclusionError::Old(CedarSchemaError::Schema(fault)),
        CedarSchemaError::Parsing(fault) => InclusionError::Old(CedarSchemaError::Parsing(fault)),
    }
}

// Why two texts are not compared where the old one means something and the new one is refused.
fn new_refusal(error: CedarSchemaError) -> InclusionError
    ensures { (old new : List ℕ) (table : ExtensionTable) → HasMeaning old table → IsTextError new table error
        → IsInclusionRefusal old new table result }
{
    match error {
        CedarSchemaError::Memory => InclusionError::Memory,
        CedarSchemaError::Schema(fault) => InclusionError::New(CedarSchemaError::Schema(fault)),
        CedarSchemaError::Parsing(fault) => InclusionError::New(CedarSchemaError::Parsing(fault)),
    }
}

/// Whether each value that the old text's schema admits is admitted by the new text's; else the first that is not. The
/// table says which extension types there are. Refused is the old text where it is no schema, or else the new one.
pub fn check_inclusion(
    alloc: Global,
    old_text: &str,
    new_text: &str,
    table: &ExtensionTable,
) -> Result<Inclusion, InclusionError>
    ensures { MatchResult result
        (λ answer. IsInclusionAnswer old_text.now new_text.now table.now (value_found answer))
        (IsInclusionRefusal old_text.now new_text.now table.now) }
{
    meanings_of_texts_are_settled();
    meanings_are_read_back();
    the_first_lost_of_built_schemas_is_found();
    the_first_lost_is_about_the_same();
    let old = match built(alloc, old_text, table) {
        Ok(schema) => schema,
        Err(error) => return Err(old_refusal(error)),
    };
    let new = match built(alloc, new_text, table) {
        Ok(schema) => schema,
        Err(error) => return Err(new_refusal(error)),
    };
    match lost(alloc, &old, &new) {
        Ok(None) => Ok(Inclusion::Yes),
        Ok(Some(value)) => Ok(Inclusion::No(value)),
        Err(_) => Err(InclusionError::Memory),
    }
}
