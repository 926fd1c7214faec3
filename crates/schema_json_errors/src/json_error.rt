ghost use Rattle.std.specs.Prelude.{◌≡◌, IfOk};
ghost use Rattle.schema_json_errors.specs.JsonTexts.{advice_text, json_fault_text, json_error_help};

use crate::json_fault::JsonFault;
use cedar_data::{CloneIn, Diagnostic, Label, Severity, Text, message};
use std::alloc::{AllocError, Global};

/// What may help where no fragment was read.
#[derive(Clone, Copy, Drop, PartialEq, Eq)]
pub enum JsonAdvice {
    /// The text may be a schema in the Cedar format.
    CedarFormat,
    /// The object may be a namespace without its name.
    MissingNamespace,
}

/// Why no fragment was read, with advice.
pub struct JsonDeserializationError {
    /// Why.
    pub fault: JsonFault,
    /// The advice, where there is any.
    pub advice: Option<JsonAdvice>,
}

impl Drop for JsonDeserializationError {
    fn drop(self) {
        let JsonDeserializationError {
            fault: _fault,
            advice: _advice,
        } = self;
    }
}

impl JsonAdvice {
    // The advice in words.
    fn text(self, alloc: Global) -> Result<Text, AllocError>
        ensures { IfOk result (λ text. text ≡ advice_text self) }
    {
        let advice = match self {
            JsonAdvice::CedarFormat => {
                "this API was expecting a schema in the JSON format; did you mean to use a different function, which expects the Cedar schema format?"
            }
            JsonAdvice::MissingNamespace => {
                "JSON formatted schema must specify a namespace. If you want to use the empty namespace, explicitly specify it with `{ \"\": {..} }`"
            }
        };
        message(alloc, advice)
    }
}

impl Diagnostic for JsonDeserializationError {
    ghost text = { λ e. json_fault_text e.fault };

    ghost help = { λ e _. json_error_help e };

    /// What the error says: what its fault says.
    fn text(&self, alloc: Global) -> Result<Text, AllocError> {
        self.fault.text(alloc)
    }

    fn help(&self, alloc: Global, _source: &str) -> Result<Option<Text>, AllocError> {
        match self.advice {
            Some(advice) => Ok(Some(advice.text(alloc)?)),
            None => Ok(None),
        }
    }

    fn labels(&self, alloc: Global) -> Result<Vec<Label>, AllocError> {
        Ok(Vec::new(alloc))
    }

    fn severity(&self) -> Severity {
        Severity::Error
    }
}

impl CloneIn for JsonDeserializationError {
    fn clone_in(&self, alloc: Global) -> Result<Self, AllocError> {
        Ok(JsonDeserializationError {
            fault: self.fault.clone_in(alloc)?,
            advice: self.advice,
        })
    }
}
