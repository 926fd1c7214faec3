// The registry as calls.

use cedar_names::ExtensionTable;
use schema_registry::{Registry, SubmitError};
use std::alloc::Global;

// Is the text entered with this id?
fn enters(registry: &mut Registry, text: &str, id: usize) -> bool {
    match registry.submit(text) {
        Ok(found) => found == id,
        Err(_) => false,
    }
}

// Is the text refused, and the registry as long as before?
fn refuses(registry: &mut Registry, text: &str) -> bool {
    let len = registry.len();
    match registry.submit(text) {
        Err(SubmitError::Refused(_)) => registry.len() == len,
        _ => false,
    }
}

// Does the registry answer submissions by their meanings?
fn answers(alloc: Global) -> bool {
    let Ok(table) = ExtensionTable::all_available(alloc) else {
        return false;
    };
    let mut registry = Registry::new(alloc, table);
    enters(&mut registry, "entity A;", 0)
        && enters(&mut registry, "entity B;", 1)
        && enters(&mut registry, "entity A ;//x", 0)
        && refuses(&mut registry, "entity A")
        && refuses(&mut registry, "entity A in B;")
        && registry.len() == 2
        && registry.entry(0) == Some("entity A;\n")
        && registry.entry(1) == Some("entity B;\n")
        && registry.entry(2).is_none()
}

#[test]
fn texts_are_entered_by_their_meanings(rt: HostRuntime) {
    assert!(rt; answers(rt.alloc()), "entries");
}
