//! Runs one part of the front end over standard input, for the scripts in `bench` to time.
#![tactic(auto)]

use cedar_data::Map;
use cedar_names::ExtensionTable;
use schema_assist::assist;
use schema_build::ValidatorSchema;
use schema_convert::parse_cedar_schema_fragment;
use schema_json::Fragment;
use schema_print::ToCedarSchema;
use schema_resolve::ResolveFragment;
use schema_syntax::{parse_schema, scan, syntax_fault_of};
use std::alloc::{AllocError, Global};
use std::process::ExitCode;
use std::{env, io};

// Whether the part that the word names takes the text.
fn takes(alloc: Global, word: &str, text: &str) -> Result<bool, AllocError> {
    match word {
        "scan" => Ok(scan(alloc, text)?.at == text.len()),
        "faults" => Ok(syntax_fault_of(alloc, text)?.is_none()),
        "parse" => Ok(parse_schema(alloc, text).is_ok()),
        "assist" => assists(alloc, text),
        "translate" => {
            let table = ExtensionTable::all_available(alloc)?;
            Ok(parse_cedar_schema_fragment(alloc, text, &table).is_ok())
        }
        "resolve" => resolves(alloc, text),
        "print" => prints(alloc, text),
        "build" => builds(alloc, text),
        _ => Ok(false),
    }
}

// Whether something may stand at the end of the text, where no names are known.
fn assists(alloc: Global, text: &str) -> Result<bool, AllocError> {
    let table = ExtensionTable::all_available(alloc)?;
    let known = Fragment(Map::new(alloc));
    Ok(assist(alloc, text, text.len(), &known, &table).is_ok())
}

// Whether each name of the text means something.
fn resolves(alloc: Global, text: &str) -> Result<bool, AllocError> {
    let table = ExtensionTable::all_available(alloc)?;
    match parse_cedar_schema_fragment(alloc, text, &table) {
        Ok((fragment, _)) => {
            Ok(
                fragment
                    .to_internal_name_fragment_with_resolved_types(alloc, &table)
                    .is_ok(),
            )
        }
        Err(_) => Ok(false),
    }
}

// Whether the fragment of the text has a text.
fn prints(alloc: Global, text: &str) -> Result<bool, AllocError> {
    let table = ExtensionTable::all_available(alloc)?;
    match parse_cedar_schema_fragment(alloc, text, &table) {
        Ok((fragment, _)) => Ok(fragment.to_cedarschema(alloc).is_ok()),
        Err(_) => Ok(false),
    }
}

// Whether a schema is built of the fragment of the text.
fn builds(alloc: Global, text: &str) -> Result<bool, AllocError> {
    let table = ExtensionTable::all_available(alloc)?;
    match parse_cedar_schema_fragment(alloc, text, &table) {
        Ok((fragment, _)) => {
            Ok(ValidatorSchema::from_schema_frag(alloc, fragment, &table).is_ok())
        }
        Err(_) => Ok(false),
    }
}

// The first word after the program's name, and the whole of standard input.
fn given(rt: &HostRuntime) -> io::Result<(String, Vec<u8>)> {
    let word = match env::args(rt)?.nth(1) {
        Some(word) => word,
        None => String::new(rt.alloc()),
    };
    let mut bytes = Vec::new(rt.alloc());
    io::copy(&mut rt.stdin(), &mut bytes)?;
    Ok((word, bytes))
}

// Whether the part that the word names takes the text of these bytes; none where they are no text.
fn takes_bytes(alloc: Global, word: &str, bytes: &[u8]) -> Option<bool> {
    match str::from_utf8(bytes) {
        Ok(text) => Some(matches!(takes(alloc, word, text), Ok(true))),
        Err(_) => None,
    }
}

fn main(rt: HostRuntime) -> ExitCode {
    match given(&rt) {
        Ok((word, bytes)) => match takes_bytes(rt.alloc(), &word, &bytes) {
            Some(true) => ExitCode::SUCCESS,
            Some(false) => ExitCode::from(1),
            None => ExitCode::from(2),
        },
        Err(_) => ExitCode::from(2),
    }
}
