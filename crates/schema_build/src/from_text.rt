ghost use Rattle.std.specs.Prelude.{◌≡◌, List, ℕ, MatchResult};
ghost use Rattle.cedar_names.specs.declared.extension_table.ExtensionTable.{ExtensionTable as Table};
ghost use Rattle.schema_convert_errors.specs.declared.warnings.SchemaWarning.{SchemaWarning as Warning};
ghost use Rattle.schema_convert.specs.Translated.{IsTranslationOfText};
ghost use Rattle.schema_build.specs.Texts.{seems_json, IsFragmentError, IsTextError, IsSchemaOfText};

use crate::schema::ValidatorSchema;
use crate::text_errors::{CedarSchemaError, CedarSchemaParseError};
use cedar_identifiers::RawName;
use cedar_names::ExtensionTable;
use schema_build_errors::SchemaError;
use schema_convert::{CedarSchemaParseErrors, SchemaWarning, parse_cedar_schema_fragment};
use schema_json::Fragment;
use std::alloc::Global;

// Whether the first character that is not blank is `{`.
fn seems_json(text: &str) -> bool
    ensures { result ≡ seems_json text.now }
{
    match text.trim_start().as_bytes().first() {
        Some(byte) => *byte == b'{',
        None => false,
    }
}

// The fragment of the text, with its warnings.
fn read_fragment(
    alloc: Global,
    src: &str,
    table: &ExtensionTable,
) -> Result<(Fragment<RawName>, Vec<SchemaWarning>), CedarSchemaError>
    ensures { MatchResult result (λ out. IsTranslationOfText src.now table.now out.0 out.1.items)
        (IsFragmentError src.now) }
{
    match parse_cedar_schema_fragment(alloc, src, table) {
        Ok(translation) => Ok(translation),
        Err(CedarSchemaParseErrors::Memory) => Err(CedarSchemaError::Memory),
        Err(errs) => Err(CedarSchemaError::Parsing(CedarSchemaParseError {
            errs,
            suspect_json: seems_json(src),
        })),
    }
}

/// What is read from a text in the Cedar schema format.
pub trait FromCedarSchema: Drop {
    /// The text is read as it under the table, with the warnings.
    ghost IsReadAs: { List ℕ → Table → Self → List Warning → Type 0 };

    /// What the text says under a table of extension types, with its warnings. A text that has no fragment is refused
    /// with its faults as `Parsing`.
    fn from_cedarschema_str(
        alloc: Global,
        src: &str,
        table: &ExtensionTable,
    ) -> Result<(Self, Vec<SchemaWarning>), CedarSchemaError>
        ensures { MatchResult result (λ out. IsReadAs src.now table.now out.0 out.1.items) (IsFragmentError src.now) };
}

impl FromCedarSchema for Fragment<RawName> {
    ghost IsReadAs = { IsTranslationOfText };

    fn from_cedarschema_str(
        alloc: Global,
        src: &str,
        table: &ExtensionTable,
    ) -> Result<(Fragment<RawName>, Vec<SchemaWarning>), CedarSchemaError> {
        read_fragment(alloc, src, table)
    }
}

impl ValidatorSchema {
    /// The schema of a text in the Cedar schema format under a table of extension types, with the text's warnings: it
    /// stands for what the text's fragment means. Refused are, in this order, a text that has no fragment, as
    /// `Parsing`, and one whose fragment has a fault, as `Schema`.
    pub fn from_cedarschema_str(
        alloc: Global,
        src: &str,
        table: &ExtensionTable,
    ) -> Result<(ValidatorSchema, Vec<SchemaWarning>), CedarSchemaError>
        ensures { MatchResult result (λ out. IsSchemaOfText src.now table.now out.0 out.1.items)
            (IsTextError src.now table.now) }
    {
        let (fragment, warnings) = read_fragment(alloc, src, table)?;
        match ValidatorSchema::from_schema_frag(alloc, fragment, table) {
            Ok(schema) => Ok((schema, warnings)),
            Err(SchemaError::Memory) => Err(CedarSchemaError::Memory),
            Err(error) => Err(CedarSchemaError::Schema(error)),
        }
    }
}
