use crate::json_shape_table::TEXTS;
use cedar_data::{Diagnostic, NonEmpty, Text};
use cedar_identifiers::RawName;
use schema_json::Fragment;
use schema_json_io::{FragmentJson, JsonAdvice, JsonDeserializationError, JsonFault};
use std::alloc::{AllocError, Global};

// The fields, with `, ` between two.
fn listed(alloc: Global, fields: &NonEmpty<Text>) -> Result<String, AllocError> {
    let mut out = String::new(alloc);
    for field in fields.iter() {
        if !out.is_empty() {
            out.push_str(", ")?;
        }
        out.push_str(field.as_str())?;
    }
    Ok(out)
}

// What the fault is.
fn fault_line(alloc: Global, fault: &JsonFault) -> Result<String, AllocError> {
    match fault {
        JsonFault::NotJson => format!(in alloc; "NotJson"),
        JsonFault::RepeatedKey(key) => format!(in alloc; "RepeatedKey({})", key.as_str()),
        JsonFault::Float => format!(in alloc; "Float"),
        JsonFault::UnknownField(field) => format!(in alloc; "UnknownField({})", field.as_str()),
        JsonFault::MissingField(field) => format!(in alloc; "MissingField({})", field.as_str()),
        JsonFault::WrongType(field) => format!(in alloc; "WrongType({})", field.as_str()),
        JsonFault::BadName { role, text, fault } => {
            let why = fault.text(alloc)?;
            format!(in alloc;
                "BadName({}) {} {}",
                role.as_str(),
                text.as_str(),
                why.as_str()
            )
        }
        JsonFault::ReservedCommonType(id) => {
            format!(in alloc; "ReservedCommonType({})", id.as_str())
        }
        JsonFault::EmptyEnum => format!(in alloc; "EmptyEnum"),
        JsonFault::ExternalConflict(fields) => {
            let fields = listed(alloc, fields)?;
            format!(in alloc; "ExternalConflict({})", fields.as_str())
        }
        JsonFault::EnumConflict(fields) => {
            let fields = listed(alloc, fields)?;
            format!(in alloc; "EnumConflict({})", fields.as_str())
        }
        JsonFault::AnnotationsOnEmptyNamespace => format!(in alloc; "AnnotationsOnEmptyNamespace"),
        JsonFault::Memory => format!(in alloc; "Memory"),
    }
}

// The fault and its advice.
pub fn error_line(alloc: Global, error: &JsonDeserializationError) -> Result<String, AllocError> {
    let mut line = fault_line(alloc, &error.fault)?;
    match error.advice {
        Some(JsonAdvice::CedarFormat) => line.push_str("; CedarFormat")?,
        Some(JsonAdvice::MissingNamespace) => line.push_str("; MissingNamespace")?,
        None => (),
    }
    Ok(line)
}

// Is the answer on the line's text the one that the line says?
fn agrees(alloc: Global, line: &str) -> bool {
    let (wanted, text) = line.split_once(" <- ").unwrap_or(("", ""));
    let answer: Result<Fragment<RawName>, JsonDeserializationError> = FragmentJson::from_json_str(
        alloc, text,
    );
    match answer {
        Ok(_) => wanted == "ok",
        Err(error) => match error_line(alloc, &error) {
            Ok(line) => line.as_str() == wanted,
            Err(_) => false,
        },
    }
}

#[test]
fn texts_are_read_or_refused(rt: HostRuntime) {
    for line in TEXTS.lines() {
        assert!(rt; agrees(rt.alloc(), line), "{line}");
    }
}
