ghost use Rattle.std.specs.Prelude.{◌≡◌, true, IfOk};
ghost use Rattle.schema_convert_errors.specs.ErrorPlaces.{text_failure_labels};
ghost use Rattle.schema_build.specs.TextErrorTexts.{with_json_help, schema_parse_error_text, schema_parse_error_help};
ghost use Rattle.schema_build.specs.TextErrorTexts.{text_error_text, text_error_help, text_error_labels};

use cedar_data::{CloneIn, Diagnostic, Label, Severity, Text, message};
use schema_build_errors::SchemaError;
use schema_convert_errors::CedarSchemaParseErrors;
use std::alloc::{AllocError, Global};

/// Why a text in the Cedar schema format has no fragment, and whether it may be a schema in JSON.
#[derive(Drop)]
pub struct CedarSchemaParseError {
    /// The faults: one of the syntax, or all of the translation.
    pub errs: CedarSchemaParseErrors,
    /// The first character of the text that is not blank is `{`.
    pub suspect_json: bool,
}

impl CedarSchemaParseError {
    /// Whether the text may be a schema in JSON: its first character that is not blank is `{`.
    pub fn suspect_json_format(&self) -> bool
        ensures { result ≡ self.now.suspect_json }
    {
        self.suspect_json
    }

    /// The faults: one of the syntax, or all of the translation.
    pub fn errors(&self) -> &CedarSchemaParseErrors
        ensures { result.now ≡ self.now.errs }
    {
        &self.errs
    }
}

impl Diagnostic for CedarSchemaParseError {
    ghost text = { schema_parse_error_text };

    ghost help = { schema_parse_error_help };

    ghost labels = { λ e. text_failure_labels e.errs };

    fn text(&self, alloc: Global) -> Result<Text, AllocError> {
        let inner = self.errs.text(alloc)?;
        let mut text = message(alloc, "error parsing schema: ")?;
        text.push_text(&inner)?;
        Ok(text)
    }

    /// Advice, where it has any. The source is the text that was read.
    fn help(&self, alloc: Global, source: &str) -> Result<Option<Text>, AllocError> {
        let help = self.errs.help(alloc, source)?;
        if self.suspect_json {
            with_json_help(alloc, help)
        } else {
            Ok(help)
        }
    }

    fn labels(&self, alloc: Global) -> Result<Vec<Label>, AllocError> {
        self.errs.labels(alloc)
    }

    fn severity(&self) -> Severity {
        Severity::Error
    }
}

impl CloneIn for CedarSchemaParseError {
    fn clone_in(&self, alloc: Global) -> Result<Self, AllocError> {
        Ok(CedarSchemaParseError {
            errs: self.errs.clone_in(alloc)?,
            suspect_json: self.suspect_json,
        })
    }
}

// The advice with a line about schemas in JSON.
fn with_json_help(alloc: Global, help: Option<Text>) -> Result<Option<Text>, AllocError>
    ensures { IfOk result (λ more. more ≡ with_json_help true help) }
{
    let json = message(
        alloc,
        "this API was expecting a schema in the Cedar schema format; did you mean to use a different function, which expects a JSON-format Cedar schema",
    )?;
    match help {
        None => Ok(Some(json)),
        Some(mut text) => {
            let mut line = message(alloc, "\n")?;
            line.push_text(&json)?;
            text.push_text(&line)?;
            Ok(Some(text))
        }
    }
}

/// Why a text in the Cedar schema format is no schema: it has no fragment, or its fragment has a fault; or out of
/// memory.
#[derive(Drop)]
pub enum CedarSchemaError {
    /// Its fragment has this fault.
    Schema(SchemaError),
    /// It has no fragment.
    Parsing(CedarSchemaParseError),
    /// Out of memory.
    Memory,
}

impl Diagnostic for CedarSchemaError {
    ghost text = { text_error_text };

    ghost help = { text_error_help };

    ghost labels = { text_error_labels };

    fn text(&self, alloc: Global) -> Result<Text, AllocError> {
        match self {
            CedarSchemaError::Schema(error) => error.text(alloc),
            CedarSchemaError::Parsing(error) => error.text(alloc),
            CedarSchemaError::Memory => message(alloc, "out of memory"),
        }
    }

    /// Advice, where it has any. The source is the text that was read.
    fn help(&self, alloc: Global, source: &str) -> Result<Option<Text>, AllocError> {
        match self {
            CedarSchemaError::Schema(error) => error.help(alloc, source),
            CedarSchemaError::Parsing(error) => error.help(alloc, source),
            CedarSchemaError::Memory => Ok(None),
        }
    }

    fn labels(&self, alloc: Global) -> Result<Vec<Label>, AllocError> {
        match self {
            CedarSchemaError::Schema(error) => error.labels(alloc),
            CedarSchemaError::Parsing(error) => error.labels(alloc),
            CedarSchemaError::Memory => Ok(Vec::new(alloc)),
        }
    }

    fn severity(&self) -> Severity {
        Severity::Error
    }
}

impl CloneIn for CedarSchemaError {
    fn clone_in(&self, alloc: Global) -> Result<Self, AllocError> {
        match self {
            CedarSchemaError::Schema(error) => Ok(CedarSchemaError::Schema(error.clone_in(alloc)?)),
            CedarSchemaError::Parsing(error) => {
                Ok(CedarSchemaError::Parsing(error.clone_in(alloc)?))
            }
            CedarSchemaError::Memory => Ok(CedarSchemaError::Memory),
        }
    }
}
