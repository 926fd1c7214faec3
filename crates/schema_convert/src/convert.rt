ghost use Rattle.std.specs.Prelude.{ℕ, List, length, IfOk, IfErr};
ghost use Rattle.std.specs.List.{All};
ghost use Rattle.schema_syntax_grammar.specs.Grammar.{Sentence};
ghost use Rattle.schema_syntax_tokens.specs.Scans.{Scans, IsPlaced};
ghost use Rattle.schema_syntax_tokens.specs.TokenLists.{kinds_of};
ghost use Rattle.schema_syntax.specs.ParseAnswers.{IsRefusalOf};
ghost use Rattle.schema_convert_plain.specs.Translation.{IsTranslation};
ghost use Rattle.schema_convert.specs.Translated.{IsFailureOf, IsTranslationOfText, IsParseFailureOf};

use cedar_data::NonEmpty;
use cedar_identifiers::RawName;
use cedar_names::ExtensionTable;
use schema_convert_errors::{
    CedarSchemaParseErrors, SchemaWarning, ToJsonSchemaErrors, ToJsonSchemaFailure,
};
use schema_convert_faults::faults::faults_in;
use schema_convert_faults::shadowing::warnings_of;
use schema_convert_fragments::fragment_of;
use schema_convert_openings::joined::joined;
use schema_convert_plain::reading::fragment_at_once;
use schema_json::Fragment;
use schema_syntax::{ParseSchemaError, parse_tokens, refused, sentence_of, stopped};
use schema_syntax_tokens::ShortToken;
use schema_syntax_tree::Schema;
use std::alloc::Global;

/// The fragment that a tree stands for, with its warnings, or all faults that keep it from being one. Namespaces of one
/// name are joined first; then a name that is reserved, or declared twice, is a fault before what is wrong with a
/// declaration.
pub fn cedar_schema_to_json_schema(
    alloc: Global,
    schema: Schema<'_>,
    table: &ExtensionTable,
) -> Result<(Fragment<RawName>, Vec<SchemaWarning>), ToJsonSchemaFailure>
    ensures translation { IfOk result (λ out. IsTranslation schema.entry table.now out.0 out.1.items) }
    ensures faults { IfErr result (IsFailureOf schema.entry) }
{
    let namespaces = joined(alloc, schema)?;
    let faults = faults_in(alloc, namespaces.as_slice())?;
    if let Some(errors) = NonEmpty::from_vec(faults) {
        return Err(ToJsonSchemaFailure::Errors(ToJsonSchemaErrors::new(errors)));
    }
    let warnings = warnings_of(alloc, namespaces.as_slice(), table)?;
    let fragment = fragment_of(alloc, namespaces)?;
    Ok((fragment, warnings))
}

// The errors of a text that has no tree.
fn syntax_errors(error: ParseSchemaError) -> CedarSchemaParseErrors
    ensures { (text : List ℕ) → IsRefusalOf text error → IsParseFailureOf text result }
{
    match error {
        ParseSchemaError::Memory => CedarSchemaParseErrors::Memory,
        ParseSchemaError::Errors(errors) => CedarSchemaParseErrors::SyntaxError(errors),
    }
}

// The fragment that a schema text of these tokens stands for, by way of its tree.
fn through_tree(
    alloc: Global,
    src: &str,
    tokens: Vec<ShortToken>,
    table: &ExtensionTable,
) -> Result<(Fragment<RawName>, Vec<SchemaWarning>), CedarSchemaParseErrors>
    requires scans { Scans src.now tokens.items (length src.now) }
    requires placed { All (IsPlaced src.now) tokens.items }
    requires sentence { Sentence (kinds_of tokens.items) }
    ensures translation { IfOk result (λ out. IsTranslationOfText src.now table.now out.0 out.1.items) }
    ensures refusal { IfErr result (IsParseFailureOf src.now) }
{
    match parse_tokens(alloc, src, tokens) {
        Err(error) => Err(syntax_errors(error)),
        Ok(schema) => match cedar_schema_to_json_schema(alloc, schema, table) {
            Ok(translation) => Ok(translation),
            Err(ToJsonSchemaFailure::Errors(errors)) => {
                Err(CedarSchemaParseErrors::JsonError(errors))
            }
            Err(ToJsonSchemaFailure::Memory) => Err(CedarSchemaParseErrors::Memory),
        },
    }
}

/// The fragment that a schema text stands for, with its warnings, or the fault that keeps it from having a tree, or all
/// faults that keep its tree from being a fragment. Where nothing is to be said of the text, each item of it is
/// translated as it is read, and no tree is made.
pub fn parse_cedar_schema_fragment(
    alloc: Global,
    src: &str,
    table: &ExtensionTable,
) -> Result<(Fragment<RawName>, Vec<SchemaWarning>), CedarSchemaParseErrors>
    ensures translation { IfOk result (λ out. IsTranslationOfText src.now table.now out.0 out.1.items) }
    ensures refusal { IfErr result (IsParseFailureOf src.now) }
{
    match sentence_of(alloc, src) {
        Err(why) => Err(syntax_errors(refused(alloc, why))),
        Ok(tokens) => match fragment_at_once(alloc, src, tokens.as_slice(), table) {
            Err(why) => Err(syntax_errors(stopped(alloc, why))),
            Ok(Some(fragment)) => Ok((fragment, Vec::new(alloc))),
            Ok(None) => through_tree(alloc, src, tokens, table),
        },
    }
}
