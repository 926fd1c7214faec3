// Entities, tables of extensions and what is defined.

use cedar_data::{CloneIn, Loc, Text, lawful};
use cedar_identifiers::{Eid, InternalName, Name};
use cedar_names::{AllDefs, EntityUID, ExtensionTable, TableError};
use std::alloc::{AllocError, Global};

// An entity, at a place; nothing where the type's text is no name.
fn entity(alloc: Global, ty: &str, id: &str) -> Option<EntityUID> {
    let (Ok(ty), Ok(id)) = (
        Name::from_normalized_str(alloc, ty),
        Text::from_str(alloc, id),
    ) else {
        return None;
    };
    Some(EntityUID {
        ty,
        eid: Eid(id),
        loc: Some(Loc::new(1, 2)),
    })
}

// Is this the text of a copy of the entity?
fn is_written(alloc: Global, uid: &EntityUID, wanted: &str) -> bool {
    let Ok(copy) = uid.clone_in(alloc) else {
        return false;
    };
    match copy.text(alloc) {
        Ok(text) => text.as_str() == wanted && copy == *uid && copy.loc == uid.loc,
        Err(_) => false,
    }
}

// By type, then by the bytes of the id, with their texts.
const ENTITIES: [(&str, &str, &str); 5] = [
    ("A", "a b", "A::\"a b\""),
    ("A", "z", "A::\"z\""),
    ("A", "\u{e9}", "A::\"\u{e9}\""),
    ("A::B", "", "A::B::\"\""),
    ("A1", "a'\u{7f}", "A1::\"a\\'\\u{7f}\""),
];

// Is the entity written so, and does it come after that one?
fn is_next(alloc: Global, last: &Option<EntityUID>, uid: &Option<EntityUID>, wanted: &str) -> bool {
    match uid {
        Some(next) => *last < *uid && is_written(alloc, next, wanted),
        None => false,
    }
}

#[test]
fn entities_sort_by_type_and_id(rt: HostRuntime) {
    let mut last = None;
    for (ty, id, wanted) in &ENTITIES {
        let uid = entity(rt.alloc(), ty, id);
        assert!(rt; is_next(rt.alloc(), &last, &uid, wanted), "{wanted}");
        last = uid;
    }
    lawful::<EntityUID>();
}

// Does a comparison see no place?
fn sees_no_place(alloc: Global) -> bool {
    let mut uid = entity(alloc, "A", "a");
    if let Some(uid) = &mut uid {
        uid.loc = None;
    }
    uid == entity(alloc, "A", "a")
}

#[test]
fn entities_see_no_place(rt: HostRuntime) {
    assert!(rt; sees_no_place(rt.alloc()));
}

// Lists of words, and the fault of each list that is no table.
const LISTS: [(&str, Option<TableError>); 9] = [
    ("a a", Some(TableError::Repeated(1))),
    ("1", Some(TableError::NotWord(0))),
    ("in", Some(TableError::Reserved(0))),
    ("Long", Some(TableError::Builtin(0))),
    ("b a Set b Action", Some(TableError::Repeated(3))),
    ("decimal a-b in", Some(TableError::NotWord(1))),
    ("__cedar Bool Bool", Some(TableError::Reserved(0))),
    ("Entity Action Action", Some(TableError::Builtin(1))),
    ("Set Record ins Bools", None),
];

// The words as strings.
fn strings(alloc: Global, words: &str) -> Result<Vec<String>, AllocError> {
    let mut names = Vec::new(alloc);
    for word in words.split(' ') {
        names.push(String::from_str(alloc, word)?)?;
    }
    Ok(names)
}

// The fault of the words as a table, where they are none.
fn fault_of(alloc: Global, words: &str) -> Option<TableError> {
    match strings(alloc, words) {
        Ok(names) => ExtensionTable::new(alloc, &names).err(),
        Err(_) => Some(TableError::Memory),
    }
}

#[test]
fn tables_name_the_first_unlawful_name(rt: HostRuntime) {
    for (words, fault) in &LISTS {
        assert!(rt; fault_of(rt.alloc(), words) == *fault, "{words}");
    }
}

// Does a copy of the table of all extensions have these, and not those?
fn has_and_lacks(alloc: Global, these: &str, those: &str) -> bool {
    let Ok(table) = ExtensionTable::all_available(alloc) else {
        return false;
    };
    match table.clone_in(alloc) {
        Ok(copy) => {
            these.split(' ').all(|name| copy.has(name))
                && !those.split(' ').any(|name| copy.has(name))
        }
        Err(_) => false,
    }
}

#[test]
fn tables_have_their_names(rt: HostRuntime) {
    let alloc = rt.alloc();
    assert!(rt;
        has_and_lacks(
            alloc,
            "datetime decimal duration ipaddr",
            "date ipaddrs Long \u{e9}"
        )
    );
    assert!(rt; !ExtensionTable::none(alloc).has("decimal"));
}

// Is this what the fault says?
fn fault_says(alloc: Global, fault: TableError, wanted: &str) -> bool {
    match format!(in alloc; "{fault}") {
        Ok(message) => message.as_str() == wanted,
        Err(_) => false,
    }
}

#[test]
fn faults_of_tables_have_messages(rt: HostRuntime) {
    let alloc = rt.alloc();
    assert!(rt; fault_says(alloc, TableError::NotWord(1), "a name is not a word"));
    assert!(rt; fault_says(alloc, TableError::Reserved(1), "a name is reserved"));
    assert!(rt; fault_says(alloc, TableError::Builtin(1), "a name is builtin"));
    assert!(rt; fault_says(alloc, TableError::Repeated(1), "a name is repeated"));
    assert!(rt; fault_says(alloc, TableError::Memory, "out of memory"));
}

// A name; nothing where the text is none.
fn named(alloc: Global, s: &str) -> Option<InternalName> {
    InternalName::from_normalized_str(alloc, s).ok()
}

// Are a common type, an entity type and an action defined?
fn define(alloc: Global, defs: &mut AllDefs) -> bool {
    let (Some(common), Some(name)) = (named(alloc, "N::C"), named(alloc, "N::E")) else {
        return false;
    };
    let Some(action) = entity(alloc, "N::Action", "v") else {
        return false;
    };
    defs.mark_as_defined_as_common_type(common).is_ok()
        && defs.mark_as_defined_as_entity_type(name).is_ok()
        && defs.mark_as_defined_as_action(action).is_ok()
        && defs.add_action_entity_types().is_ok()
}

// Is something of this name defined: a common type, an entity type?
fn is_defined(alloc: Global, defs: &AllDefs, name: &str, common: bool, entity: bool) -> bool {
    match named(alloc, name) {
        Some(name) => {
            defs.is_defined_as_common(&name) == common && defs.is_defined_as_entity(&name) == entity
        }
        None => false,
    }
}

// Does a copy hold what was defined?
fn definitions_hold(alloc: Global, defs: &AllDefs) -> bool {
    let (Ok(copy), Some(action)) = (defs.clone_in(alloc), entity(alloc, "N::Action", "v")) else {
        return false;
    };
    is_defined(alloc, &copy, "N::C", true, false)
        && is_defined(alloc, &copy, "N::E", false, true)
        && is_defined(alloc, &copy, "N::Action", false, true)
        && is_defined(alloc, &copy, "N::A", false, false)
        && copy.is_defined_as_action(&action)
}

#[test]
fn definitions_are_three_sets(rt: HostRuntime) {
    let mut defs = AllDefs::new(rt.alloc());
    assert!(rt; define(rt.alloc(), &mut defs));
    assert!(rt; definitions_hold(rt.alloc(), &defs));
}

// Many names at once: those of common types, and the two others.
fn defined_at_once(alloc: Global) -> Option<AllDefs> {
    let (Some(common), Some(name)) = (named(alloc, "N::C"), named(alloc, "N::E")) else {
        return None;
    };
    let mut commons = Vec::new(alloc);
    let mut entities = Vec::new(alloc);
    if commons.push(common).is_err() || entities.push(name).is_err() {
        return None;
    }
    Some(AllDefs::from_names(alloc, commons, entities, Vec::new(alloc)))
}

// Is one more common type defined with the others?
fn one_more(alloc: Global, defs: &mut AllDefs) -> bool {
    let mut more = Vec::new(alloc);
    match named(alloc, "M::C") {
        Some(name) => more.push(name).is_ok() && defs.mark_all_as_common_types(more).is_ok(),
        None => false,
    }
}

#[test]
fn names_are_defined_at_once(rt: HostRuntime) {
    let alloc = rt.alloc();
    match defined_at_once(alloc) {
        Some(mut defs) => {
            let added = one_more(alloc, &mut defs);
            let holds = is_defined(alloc, &defs, "N::C", true, false)
                && is_defined(alloc, &defs, "N::E", false, true)
                && is_defined(alloc, &defs, "M::C", true, false);
            assert!(rt; added && holds);
        }
        None => assert!(rt; false),
    }
}
