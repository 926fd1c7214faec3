// Faults and warnings, found in a line piece by piece.

use cedar_data::{Loc, Text};
use schema_convert::{
    MissingOrEmpty, NoPrincipalOrResource, SchemaWarning, ToJsonSchemaError, ToJsonSchemaErrors,
};
use schema_tests_lines::Wanted;

fn find_named(wanted: &mut Wanted<'_>, word: &str, name: &Text, place: Option<Loc>) {
    wanted.piece(word);
    wanted.piece(" ");
    wanted.piece(name.as_str());
    wanted.place(place);
}

// A word, a name and two places.
fn find_twice(
    wanted: &mut Wanted<'_>,
    word: &str,
    name: &Text,
    first: Option<Loc>,
    second: Option<Loc>,
) {
    find_named(wanted, word, name, first);
    wanted.place(second);
}

fn find_missing(wanted: &mut Wanted<'_>, fault: &NoPrincipalOrResource) {
    match fault.missing_or_empty {
        MissingOrEmpty::Missing => {
            wanted.piece("missing ");
            find_named(wanted, fault.kind.as_str(), &fault.name, fault.name_loc);
        }
        MissingOrEmpty::Empty { loc } => {
            wanted.piece("empty ");
            find_twice(
                wanted,
                fault.kind.as_str(),
                &fault.name,
                fault.name_loc,
                loc,
            );
        }
    }
}

fn find_fault(wanted: &mut Wanted<'_>, fault: &ToJsonSchemaError) {
    match fault {
        ToJsonSchemaError::DuplicateDeclarations(f) => {
            find_twice(wanted, "twice", &f.decl, f.loc1, f.loc2);
        }
        ToJsonSchemaError::DuplicateContext(f) => {
            find_twice(wanted, "context", &f.name, f.loc1, f.loc2);
        }
        ToJsonSchemaError::DuplicatePrincipalOrResource(f) => {
            find_twice(wanted, f.kind.as_str(), &f.name, f.loc1, f.loc2);
        }
        ToJsonSchemaError::NoPrincipalOrResource(f) => find_missing(wanted, f),
        ToJsonSchemaError::DuplicateNamespaces(f) => {
            find_twice(wanted, "namespace", &f.namespace_id, f.loc1, f.loc2);
        }
        ToJsonSchemaError::UnknownTypeName(f) => find_named(wanted, "unknown", &f.name, f.loc),
        ToJsonSchemaError::ReservedName(f) => find_named(wanted, "reserved", &f.name, f.loc),
        ToJsonSchemaError::ReservedSchemaKeyword(f) => {
            find_named(wanted, "keyword", &f.keyword, f.loc);
        }
    }
}

/// The faults are found next, with `; ` between two.
pub fn find_faults(wanted: &mut Wanted<'_>, errors: &ToJsonSchemaErrors) {
    let mut is_first = true;
    for fault in errors.iter() {
        if !is_first {
            wanted.piece("; ");
        }
        find_fault(wanted, fault);
        is_first = false;
    }
}

fn find_warning(wanted: &mut Wanted<'_>, warning: &SchemaWarning) {
    match warning {
        SchemaWarning::ShadowsBuiltin(w) => find_named(wanted, "; builtin", &w.name, w.loc),
        SchemaWarning::ShadowsEntity(w) => {
            find_twice(wanted, "; entity", &w.name, w.entity_loc, w.common_loc);
        }
    }
}

/// The warnings are found next, behind `ok` and each behind `; `.
pub fn find_warnings(wanted: &mut Wanted<'_>, warnings: &[SchemaWarning]) {
    wanted.piece("ok");
    for warning in warnings {
        find_warning(wanted, warning);
    }
}
