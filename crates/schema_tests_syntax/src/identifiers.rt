// What the readers of names say of texts, and names made, compared, qualified, copied and written.

use crate::name_table::{alike_lines, apart_lines, word_and_name_lines};
use cedar_data::{CloneIn, Diagnostic, Loc, Map, SharedMap, Text, lawful};
use cedar_identifiers::{
    Annotations, AnyId, ConditionalName, Eid, Id, InternalName, Name, NameFault, NameText, RawName,
    ReferenceType, UnreservedId,
};
use schema_tests_lines::{copies, with_line_ends};
use std::alloc::Global;

// Is this what a reader says?
fn says<T: Drop>(alloc: Global, answer: Result<T, NameFault>, wanted: &str) -> bool {
    match answer {
        Ok(_) => wanted.is_empty(),
        Err(fault) => match fault.text(alloc) {
            Ok(text) => text.as_str() == wanted,
            Err(_) => false,
        },
    }
}

// Is this what the reader with this number says: of any word, an id, an unreserved id, a name, a name without
// `__cedar`, and a name as written?
fn reader_says(alloc: Global, reader: usize, s: &str, wanted: &str) -> bool {
    match reader {
        0 => says(alloc, AnyId::from_normalized_str(alloc, s), wanted),
        1 => says(alloc, Id::from_normalized_str(alloc, s), wanted),
        2 => says(alloc, UnreservedId::from_normalized_str(alloc, s), wanted),
        3 => says(alloc, InternalName::from_normalized_str(alloc, s), wanted),
        4 => says(alloc, Name::from_normalized_str(alloc, s), wanted),
        _ => says(alloc, RawName::from_normalized_str(alloc, s), wanted),
    }
}

// Do all readers say of the line's text what the line says, where the answers of a reader is the one at this place?
fn readers_agree(alloc: Global, line: &str, places: &[usize; 6]) -> bool {
    let Ok(line) = with_line_ends(alloc, line) else {
        return false;
    };
    let (answers, text) = line.as_str().split_once("=>").unwrap_or(("", ""));
    for (reader, place) in places.iter().enumerate() {
        let wanted = answers.split(';').nth(*place).unwrap_or("-");
        if !reader_says(alloc, reader, text, wanted) {
            return false;
        }
    }
    true
}

#[test]
fn readers_agree_with_tables(rt: HostRuntime) {
    for line in alike_lines().lines() {
        assert!(rt; readers_agree(rt.alloc(), line, &[0; 6]), "{line}");
    }
    for line in word_and_name_lines().lines() {
        assert!(rt;
            readers_agree(rt.alloc(), line, &[0, 0, 0, 1, 1, 1]),
            "{line}"
        );
    }
    for line in apart_lines().lines() {
        assert!(rt;
            readers_agree(rt.alloc(), line, &[0, 1, 2, 3, 4, 3]),
            "{line}"
        );
    }
}

// Is what was read copied?
fn copies_read<T: CloneIn + PartialEq>(alloc: Global, answer: Result<T, NameFault>) -> bool {
    match answer {
        Ok(value) => copies(alloc, &value),
        Err(_) => false,
    }
}

// Is this the text of the name, which is followed by `?` where it is as written?
fn is_called<N: NameText>(alloc: Global, name: &N, wanted: &str) -> bool {
    let wanted = if N::TYPED {
        Some(wanted)
    } else {
        wanted.strip_suffix("?")
    };
    match name.text(alloc) {
        Ok(text) => wanted == Some(text.as_str()),
        Err(_) => false,
    }
}

// Is this the text of what was read?
fn reads<N: NameText + Drop>(alloc: Global, answer: Result<N, NameFault>, wanted: &str) -> bool {
    match answer {
        Ok(name) => is_called(alloc, &name, wanted),
        Err(_) => false,
    }
}

#[test]
fn words_and_names_are_copied(rt: HostRuntime) {
    let alloc = rt.alloc();
    assert!(rt; copies_read(alloc, AnyId::from_normalized_str(alloc, "in")));
    assert!(rt; copies_read(alloc, Id::from_normalized_str(alloc, "_A1")));
    assert!(rt; copies_read(alloc, UnreservedId::from_normalized_str(alloc, "_A1")));
    assert!(rt; copies_read(alloc, InternalName::from_normalized_str(alloc, "N::A")));
    assert!(rt; copies_read(alloc, Name::from_normalized_str(alloc, "N::A")));
    assert!(rt; copies_read(alloc, RawName::from_normalized_str(alloc, "N::A")));
    assert!(rt; copies(alloc, &Eid(Text::new(alloc))));
    assert!(rt; copies(alloc, &ReferenceType::Common));
    lawful::<ConditionalName>();
    lawful::<Annotations>();
}

#[test]
fn names_are_written(rt: HostRuntime) {
    let alloc = rt.alloc();
    assert!(rt;
        reads(
            alloc,
            InternalName::from_normalized_str(alloc, "N::A"),
            "N::A"
        )
    );
    assert!(rt; reads(alloc, Name::from_normalized_str(alloc, "N::A"), "N::A"));
    assert!(rt; reads(alloc, RawName::from_normalized_str(alloc, "N::A"), "N::A?"));
}

// Is an annotation with a value copied?
fn copies_annotations(alloc: Global) -> bool {
    let Ok(key) = AnyId::from_normalized_str(alloc, "in") else {
        return false;
    };
    let mut entries = Vec::new(alloc);
    if entries.push((key, Some(Text::new(alloc)))).is_err() {
        return false;
    }
    let Ok(map) = Map::from_entries(alloc, entries) else {
        return false;
    };
    match SharedMap::from_map(alloc, map) {
        Ok(notes) => copies(alloc, &Annotations(notes)),
        Err(_) => false,
    }
}

// Does a copy of the fault say this, and nothing besides?
fn fault_says(alloc: Global, fault: &NameFault, wanted: &str) -> bool {
    match fault.clone_in(alloc) {
        Ok(copy) => says::<()>(alloc, Err(copy), wanted),
        Err(_) => false,
    }
}

#[test]
fn annotations_and_faults_are_copied(rt: HostRuntime) {
    let alloc = rt.alloc();
    assert!(rt; copies_annotations(alloc));
    assert!(rt; fault_says(alloc, &NameFault::Memory, "out of memory"));
    assert!(rt;
        fault_says(
            alloc,
            &NameFault::Token(Text::new(alloc)),
            "unexpected token ``"
        )
    );
}

// A name, with a place; nothing where the text is none.
fn named(alloc: Global, s: &str) -> Option<InternalName> {
    match InternalName::from_normalized_str(alloc, s) {
        Ok(mut name) => {
            name.loc = Some(Loc::new(3, 7));
            Some(name)
        }
        Err(_) => None,
    }
}

// Is this the text of the name in the namespace?
fn qualifies(
    alloc: Global,
    namespace: Option<&InternalName>,
    name: Option<InternalName>,
    wanted: &str,
) -> bool {
    match name {
        Some(name) => match name.qualify_with(alloc, namespace) {
            Ok(name) => is_called(alloc, &name, wanted),
            Err(_) => false,
        },
        None => false,
    }
}

// Are these the texts of what the reference may stand for, with a blank behind each?
fn may_be(alloc: Global, reference: &ConditionalName, wanted: &str) -> bool {
    let mut left = wanted.split(' ');
    for name in reference.possibilities().iter() {
        if !is_called(alloc, name, left.next().unwrap_or("")) {
            return false;
        }
    }
    left.next() == Some("")
}

// May the name in the namespace be one of these, and is the reference copied and written as it was?
fn refers(
    alloc: Global,
    namespace: Option<&InternalName>,
    name: Option<InternalName>,
    wanted: &str,
    written: &str,
) -> bool {
    let Some(name) = name else {
        return false;
    };
    let raw = RawName::from_internal(name);
    match raw.conditionally_qualify_with(alloc, namespace, ReferenceType::Common) {
        Ok(reference) => {
            may_be(alloc, &reference, wanted)
                && copies(alloc, &reference)
                && is_called(alloc, &reference, written)
        }
        Err(_) => false,
    }
}

// A namespace, a name, the name in the namespace, and what a reference by it may stand for.
const REFERENCES: [(&str, &str, &str, &str); 6] = [
    ("", "A", "A", "A "),
    ("N", "A", "N::A", "N::A A "),
    ("N::M", "A", "N::M::A", "N::M::A A "),
    ("", "B::A", "B::A", "B::A "),
    ("N", "B::A", "B::A", "B::A "),
    ("N", "N::A", "N::A", "N::A "),
];

#[test]
fn a_namespace_goes_before_an_unqualified_name(rt: HostRuntime) {
    let alloc = rt.alloc();
    for (namespace, name, full, all) in &REFERENCES {
        let namespace = named(alloc, namespace);
        assert!(rt; qualifies(alloc, namespace.as_ref(), named(alloc, name), full));
        assert!(rt; refers(alloc, namespace.as_ref(), named(alloc, name), all, name));
    }
}

// Does a comparison see no place, and does a copy have its own?
fn sees_no_place(alloc: Global) -> bool {
    match (
        named(alloc, "N::A"),
        InternalName::from_normalized_str(alloc, "N::A"),
    ) {
        (Some(placed), Ok(placeless)) => match placed.clone_in(alloc) {
            Ok(copy) => copy == placeless && copy.loc == placed.loc,
            Err(_) => false,
        },
        _ => false,
    }
}

// Are the texts those of names in their order?
fn rise(alloc: Global, texts: &str) -> bool {
    let mut last = None;
    for text in texts.split(' ') {
        let name = named(alloc, text);
        if name <= last {
            return false;
        }
        last = name;
    }
    true
}

#[test]
fn names_sort_by_their_components(rt: HostRuntime) {
    assert!(rt; rise(rt.alloc(), "A A::B A::B::A A::a A1 B::A _ a"));
    assert!(rt; sees_no_place(rt.alloc()));
}
