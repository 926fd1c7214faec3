ghost use Rattle.std.specs.Prelude.{◌≡◌, ◌≢◌, IfOk, IfErr, OnOk};
ghost use Rattle.std.specs.Str.{encode_utf8_all};
ghost use Rattle.cedar_names.specs.Meaning.{SchemaMeaning};
ghost use Rattle.cedar_names.specs.CanonicalText.{canonical_text};
ghost use Rattle.schema_convert.specs.Translated.{IsTranslationOfText};
ghost use Rattle.schema_build_checks.specs.Rows.{Never};
ghost use Rattle.schema_build_parts.specs.BuildFaults.{BuildFault};
ghost use Rattle.schema_build_text.specs.Captured.{IsUncaptured};
ghost use Rattle.schema_build.specs.Schemas.{StandsFor, Builds};
ghost use Rattle.cedar_schema_core.specs.Meanings.{IsValid};
ghost use Rattle.cedar_schema_core.specs.Recovery.{IsRecovered, IsRefusal};
ghost use Rattle.cedar_schema_core.specs.Steps.{IsUnparsed, IsUnbuilt, IsUnprinted};

use crate::laws::{one_translation, refused_or_translated};
use cedar_data::Text;
use cedar_identifiers::RawName;
use cedar_names::ExtensionTable;
use cedar_schema_core_faults::RecoverError;
use schema_build::{SchemaError, ToTextError, ValidatorSchema, one_fragment_meaning};
use schema_convert::{CedarSchemaParseErrors, SchemaWarning, parse_cedar_schema_fragment};
use schema_json::Fragment;
use std::alloc::Global;

/// What was recovered from a text.
#[derive(Drop)]
pub struct Recovered {
    /// The canonical text.
    pub text: Text,
    /// What the text may do but should not, in order.
    pub warnings: Vec<SchemaWarning>,
    /// How many entity types the meaning holds.
    pub entity_types: usize,
    /// How many actions the meaning holds.
    pub actions: usize,
}

/// The fragment that the text is translated to, with its warnings.
pub(crate) fn translate(
    alloc: Global,
    text: &str,
    table: &ExtensionTable,
) -> Result<(Fragment<RawName>, Vec<SchemaWarning>), RecoverError>
    ensures parsed { IfOk result (λ out. IsTranslationOfText text.now table.now out.0 out.1.items) }
    ensures refused { IfErr result (IsUnparsed text.now) }
{
    match parse_cedar_schema_fragment(alloc, text, table) {
        Ok(translation) => Ok(translation),
        Err(CedarSchemaParseErrors::Memory) => Err(RecoverError::Memory),
        Err(errors) => Err(RecoverError::Parse(errors)),
    }
}

/// The schema of the fragment.
pub(crate) fn build(
    alloc: Global,
    fragment: Fragment<RawName>,
    table: &ExtensionTable,
) -> Result<ValidatorSchema, RecoverError>
    ensures built { IfOk result (Builds fragment table.now) }
    ensures faultless { OnOk result (Never (BuildFault fragment table.now)) }
    ensures refused { IfErr result (IsUnbuilt fragment table.now) }
{
    match ValidatorSchema::from_schema_frag(alloc, fragment, table) {
        Ok(schema) => Ok(schema),
        Err(SchemaError::Memory) => Err(RecoverError::Memory),
        Err(error) => Err(RecoverError::Schema(error)),
    }
}

/// The canonical text of the schema, which stands for a meaning.
pub(crate) fn print(alloc: Global, schema: &ValidatorSchema) -> Result<Text, RecoverError>
    ensures text { IfOk result (λ text. (m : SchemaMeaning) → StandsFor schema.now m
        → encode_utf8_all text ≡ canonical_text m) }
    ensures uncaptured { OnOk result ((m : SchemaMeaning) → StandsFor schema.now m → IsUncaptured m) }
    ensures refused { IfErr result (λ e. (m : SchemaMeaning) → StandsFor schema.now m → IsUnprinted m e) }
{
    match schema.to_cedar_schema(alloc) {
        Ok(text) => Ok(text),
        Err(ToTextError::Captured(captured)) => Err(RecoverError::Captured(captured)),
        Err(_) => Err(RecoverError::Memory),
    }
}

/// The canonical text of what a schema text means under a table of extension types, with its warnings and counts.
/// Refused are a text that has no fragment, one whose fragment has a build fault, and one whose canonical text would be
/// read otherwise.
pub fn recover_schema(
    alloc: Global,
    text: &str,
    table: &ExtensionTable,
) -> Result<Recovered, RecoverError>
    ensures recovered { IfOk result (IsRecovered text.now table.now) }
    ensures refused { IfErr result (IsRefusal text.now table.now) }
    ensures invalid { IfErr result (λ fault. fault ≢ RecoverError.Memory → IsValid text.now table.now → ⊥) }
{
    one_translation();
    refused_or_translated();
    one_fragment_meaning();
    let (fragment, warnings) = translate(alloc, text, table)?;
    let schema = build(alloc, fragment, table)?;
    let text = print(alloc, &schema)?;
    Ok(Recovered {
        text,
        warnings,
        entity_types: schema.entity_types().len(),
        actions: schema.actions().len(),
    })
}
