use schema_json_keys::look_through;
use std::alloc::Global;

// A key, or nothing, and behind `|` a text whose first repeated key it is. Worked by hand: a key comes again where its object has
// had it, its escapes read; of several the one whose second place comes first in the text; a text that is no JSON has none.
const TEXTS: &str = r#"b|{"a": {"b": 1, "b": 2}, "a": 1}
a|{"a": {"b": 1}, "\u0061": [{"c": 1, "c": 2}]}
c|[1, {"x": [{"c": null, "d": 1, "c": 2}]}]
|[{"a": 1}, {"a": 2}]
|{"a": {"a": {"a": 1}}}
|{"a": 1, "a": 2
|"a"
"#;

// Is the first repeated key of the line's text the one that the line says?
fn agrees(alloc: Global, line: &str) -> bool {
    let (key, text) = line.split_once('|').unwrap_or(("", ""));
    match look_through(alloc, text) {
        Ok(found) => match found.repeated {
            Some(found) => !key.is_empty() && found.as_str() == key,
            None => key.is_empty(),
        },
        Err(_) => false,
    }
}

#[test]
fn repeated_keys_are_found(rt: HostRuntime) {
    for line in TEXTS.lines() {
        assert!(rt; agrees(rt.alloc(), line), "{line}");
    }
}
