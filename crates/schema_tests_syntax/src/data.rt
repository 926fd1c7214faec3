// Calls that take memory answer with what they make, and their copies are alike.

use cedar_data::{
    Boxed, CloneIn, Label, List, Loc, Map, Node, NonEmpty, Set, Text, and_list, around, by_number,
    comma_list, lawful, message, push_both,
};
use schema_tests_lines::{copies, says, text};
use std::alloc::Global;
use std::collections::BTreeMap;

// Are texts put together?
fn grows(alloc: Global) -> bool {
    let mut whole = text(alloc, "Z");
    whole.push_str("\u{fc}").is_ok()
        && whole.push_text(&text(alloc, "ri")).is_ok()
        && push_both(&mut whole, &text(alloc, "c"), "h").is_ok()
        && whole.as_str() == "Z\u{fc}rich"
        && copies(alloc, &whole)
}

// Are messages put together?
fn makes_messages(alloc: Global) -> bool {
    let texts = [text(alloc, "a"), text(alloc, "b"), text(alloc, "c")];
    says(message(alloc, "m"), "m")
        && says(around(alloc, "<", &texts[0], ">"), "<a>")
        && says(comma_list(alloc, &texts), "a, b, c")
        && says(and_list(alloc, &texts), "a, b, and c")
        && says(by_number(alloc, &texts, "one", "several"), "several")
}

// Is a boxed text made and copied?
fn boxes(alloc: Global) -> bool {
    match Boxed::new(alloc, text(alloc, "a")) {
        Ok(boxed) => boxed.get().as_str() == "a" && copies(alloc, &boxed),
        Err(_) => false,
    }
}

// Is a list made and copied?
fn lists(alloc: Global) -> bool {
    let mut list = List::new(alloc);
    list.push(text(alloc, "a")).is_ok() && list.as_slice().len() == 1 && copies(alloc, &list)
}

// Is a list with two items copied?
fn lists_with_a_first(alloc: Global) -> bool {
    let mut tail = Vec::new(alloc);
    tail.push(text(alloc, "b")).is_ok()
        && copies(alloc, &NonEmpty::from_parts(text(alloc, "a"), tail))
}

// Is a map of entries made and copied?
fn maps_entries(alloc: Global) -> bool {
    let mut entries = Vec::new(alloc);
    if entries
        .push((text(alloc, "b"), text(alloc, "first")))
        .is_err()
        || entries
            .push((text(alloc, "b"), text(alloc, "last")))
            .is_err()
    {
        return false;
    }
    match Map::from_entries(alloc, entries) {
        Ok(map) => {
            map.as_slice().len() == 1
                && matches!(map.get(&text(alloc, "b")), Some(value) if value.as_str() == "last")
                && copies(alloc, &map)
        }
        Err(_) => false,
    }
}

// Is a map made of a tree?
fn maps_trees(alloc: Global) -> bool {
    let mut tree = BTreeMap::new(alloc);
    if tree.insert(text(alloc, "b"), ()).is_err() || tree.insert(text(alloc, "a"), ()).is_err() {
        return false;
    }
    match Map::from_tree(alloc, tree) {
        Ok(map) =>
            matches!(map.as_slice(), [(a, ()), (b, ())] if a.as_str() == "a" && b.as_str() == "b"),
        Err(_) => false,
    }
}

// Is a label copied?
fn labels(alloc: Global) -> bool {
    let label = Label {
        span: Loc::new(2, 3),
        text: Some(text(alloc, "here")),
    };
    match label.clone_in(alloc) {
        Ok(copy) => copy.span == label.span && copy.text == label.text,
        Err(_) => false,
    }
}

#[test]
fn calls_that_take_memory(rt: HostRuntime) {
    let alloc = rt.alloc();
    assert!(rt; grows(alloc));
    assert!(rt; makes_messages(alloc));
    assert!(rt; boxes(alloc) && lists(alloc) && lists_with_a_first(alloc));
    assert!(rt; maps_entries(alloc) && maps_trees(alloc) && labels(alloc));
    assert!(rt; copies(alloc, &(text(alloc, "a"), Some(text(alloc, "b")))));
    assert!(rt; copies(alloc, &()) && copies(alloc, &Set::<Text>::new(alloc)));
}

// Does a comparison see no place, and does a copy have its own?
fn sees_no_place(alloc: Global) -> bool {
    let placed = Node::with_maybe_source_loc(text(alloc, "a"), Some(Loc::new(1, 3)));
    let placeless = Node::with_maybe_source_loc(text(alloc, "a"), None);
    match placed.clone_in(alloc) {
        Ok(copy) => copy == placeless && copy.loc == placed.loc,
        Err(_) => false,
    }
}

#[test]
fn comparisons_see_no_place(rt: HostRuntime) {
    assert!(rt; sees_no_place(rt.alloc()));
    lawful::<Map<Text, List<Boxed<Text>>>>();
    lawful::<Set<NonEmpty<Node<Text>>>>();
}
