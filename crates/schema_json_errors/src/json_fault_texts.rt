ghost use Rattle.std.specs.List.{list_all};
ghost use Rattle.std.specs.Char.{is_ascii};
ghost use Rattle.std.specs.Prelude.{◌≡◌, ◌++◌, true, codes, IfOk};
ghost use Rattle.cedar_data.specs.Rows.{joined_by};
ghost use Rattle.schema_json_errors.specs.JsonTexts.{is_of_action, external_lead, bad_name_text, json_fault_text};

use crate::json_fault::JsonFault;
use cedar_data::{
    CloneIn, Diagnostic, Label, NonEmpty, Severity, Text, around, comma_list, message, push_both,
};
use cedar_identifiers::NameFault;
use schema_json::ReservedCommonTypeBasenameError;
use std::alloc::{AllocError, Global};

impl Diagnostic for JsonFault {
    ghost text = { json_fault_text };

    fn text(&self, alloc: Global) -> Result<Text, AllocError> {
        match self {
            JsonFault::NotJson => message(alloc, "the text is not JSON"),
            JsonFault::RepeatedKey(_) => message(alloc, "invalid entry: found duplicate key"),
            JsonFault::Float => message(alloc, "a number is no whole number of 64 bits"),
            JsonFault::UnknownField(field) => around(alloc, "unknown field `", field, "`"),
            JsonFault::MissingField(field) => around(alloc, "missing field `", field, "`"),
            JsonFault::WrongType(field) => around(alloc, "wrong type of value for `", field, "`"),
            JsonFault::BadName { role, text, fault } => bad_name_text(alloc, role, text, fault),
            JsonFault::ReservedCommonType(id) => {
                let error = ReservedCommonTypeBasenameError {
                    id: id.clone_in(alloc)?,
                };
                error.text(alloc)
            }
            JsonFault::EmptyEnum => message(alloc, "an enumerated entity type has no choices"),
            JsonFault::ExternalConflict(fields) => with_list(alloc, external_lead(fields), fields),
            JsonFault::EnumConflict(fields) => with_list(alloc, "unexpected field: ", fields),
            JsonFault::AnnotationsOnEmptyNamespace => {
                message(alloc, "annotations are not allowed on the empty namespace")
            }
            JsonFault::Memory => message(alloc, "out of memory"),
        }
    }

    fn help(&self, _alloc: Global, _source: &str) -> Result<Option<Text>, AllocError> {
        Ok(None)
    }

    fn labels(&self, alloc: Global) -> Result<Vec<Label>, AllocError> {
        Ok(Vec::new(alloc))
    }

    fn severity(&self) -> Severity {
        Severity::Error
    }
}

// What is said of a text that is no name of its role.
fn bad_name_text(
    alloc: Global,
    role: &Text,
    text: &Text,
    fault: &NameFault,
) -> Result<Text, AllocError>
    ensures { IfOk result (λ said. said ≡ bad_name_text role.now text.now fault.now) }
{
    let mut said = around(alloc, "invalid ", role, " `")?;
    push_both(&mut said, text, "`: ")?;
    said.push_text(&fault.text(alloc)?)?;
    Ok(said)
}

// Whether only actions have a field of this name.
fn is_of_action(field: &str) -> bool
    ensures { result ≡ is_of_action field.now }
{
    field == "attributes" || field == "appliesTo"
}

// What is said before the fields that stand beside `external`.
fn external_lead(fields: &NonEmpty<Text>) -> &'static str
    ensures text { result.now ≡ external_lead fields.now }
    ensures ascii { list_all is_ascii result.now ≡ true }
{
    if is_of_action(fields.first().as_str()) {
        "unexpected field on an external action: "
    } else {
        "unexpected field on an external entity type: "
    }
}

// The lead, which is ASCII, and the fields with `, ` between two.
fn with_list(alloc: Global, lead: &str, fields: &NonEmpty<Text>) -> Result<Text, AllocError>
    requires { list_all is_ascii lead.now ≡ true }
    ensures { IfOk result (λ said. said ≡ lead.now ++ joined_by (codes ", ") fields.now) }
{
    let mut said = message(alloc, lead)?;
    let list = comma_list(alloc, &copies(alloc, fields)?)?;
    said.push_text(&list)?;
    Ok(said)
}

// The texts, in order.
fn copies(alloc: Global, texts: &NonEmpty<Text>) -> Result<Vec<Text>, AllocError>
    ensures { IfOk result (λ copies. copies.items ≡ texts.now) }
{
    let mut copies = Vec::new(alloc);
    for text in texts.iter() {
        copies.push(text.clone_in(alloc)?)?;
    }
    Ok(copies)
}
