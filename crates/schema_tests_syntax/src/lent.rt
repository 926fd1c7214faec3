// Words, strings and paths that are slices of a text, and trees of long texts.

use cedar_data::Loc;
use schema_syntax::parse_schema;
use schema_syntax_tree::{Path, SrcId, SrcStr};
use schema_tests_lines::Wanted;
use std::alloc::{AllocError, Global};

// Is this the body of the string, and this what it stands for?
fn is_string(alloc: Global, body: &str, value: &str) -> bool {
    match SrcStr::new(body) {
        Some(string) => match string.to_text(alloc) {
            Ok(text) => text.as_str() == value && string.raw() == body,
            Err(_) => false,
        },
        None => false,
    }
}

// Stand the two bodies for the same?
fn are_alike(left: &str, right: &str) -> bool {
    match (SrcStr::new(left), SrcStr::new(right)) {
        (Some(left), Some(right)) => left == right,
        _ => false,
    }
}

#[test]
fn strings_are_seen_as_their_values(rt: HostRuntime) {
    assert!(rt; is_string(rt.alloc(), "a\\x41", "aA"));
    assert!(rt; is_string(rt.alloc(), "", ""));
    assert!(rt; SrcStr::new("\\q").is_none());
    assert!(rt; are_alike("a\\x41", "\\u{61}A"));
    assert!(rt; !are_alike("a\\x41", "aB"));
}

// The path of these words, the outermost first, where they are words.
fn path<'a>(alloc: Global, text: &'a str) -> Result<Option<Path<'a>>, AllocError> {
    let mut namespace = Vec::new(alloc);
    for word in text.split(' ') {
        if let Some(id) = SrcId::new(word) {
            namespace.push(id)?;
        }
    }
    match namespace.pop() {
        Some(basename) => Ok(Some(Path::new(basename, namespace, Some(Loc::new(2, 5))))),
        None => Ok(None),
    }
}

// Are these the words of the path, in order?
fn goes_over(path: &Path<'_>, words: &str) -> bool {
    let mut wanted = Wanted::new(words);
    for id in path.iter() {
        wanted.piece(id.as_str());
        wanted.piece(" ");
    }
    wanted.is_met()
}

// Are these the words of the path with their places?
fn gives(path: Path<'_>, words: &str) -> bool {
    let mut wanted = Wanted::new(words);
    for id in path.into_iter() {
        wanted.piece(id.node.as_str());
        wanted.place(id.loc);
        wanted.piece(" ");
    }
    wanted.is_met()
}

// Is this the last word of the path, behind these?
fn ends_with(path: Path<'_>, last: &str, words: &str) -> bool {
    let (namespace, basename) = path.split_last();
    let mut wanted = Wanted::new(words);
    for id in &namespace {
        wanted.piece(id.as_str());
        wanted.piece(" ");
    }
    wanted.is_met() && basename.as_str() == last
}

// Goes a path over its words in each way, and is it in `__cedar` as it is said to be?
fn is_path(
    alloc: Global,
    words: &str,
    places: &str,
    last: &str,
    front: &str,
    in_cedar: bool,
) -> bool {
    let (Ok(Some(first)), Ok(Some(second))) = (path(alloc, words), path(alloc, words)) else {
        return false;
    };
    first.is_in_cedar() == in_cedar
        && goes_over(&first, words)
        && gives(first, places)
        && ends_with(second, last, front)
}

#[test]
fn paths_go_over_their_words(rt: HostRuntime) {
    let alloc = rt.alloc();
    let places = "foo@2-5 bar@2-5 baz@2-5 ";
    assert!(rt; is_path(alloc, "foo bar baz ", places, "baz", "foo bar ", false));
    let places = "__cedar@2-5 Bool@2-5 ";
    assert!(rt; is_path(alloc, "__cedar Bool ", places, "Bool", "__cedar ", true));
    assert!(rt; SrcId::new("in").is_none() && SrcId::new("a b").is_none());
}

// A text of this many declarations.
fn declarations(alloc: Global, count: usize) -> Result<String, AllocError> {
    let mut text = String::new(alloc);
    for _ in 0..count {
        text.push_str("entity A;\n")?;
    }
    Ok(text)
}

// Has the text of so many declarations as many in its tree?
fn are_read(alloc: Global, count: usize) -> bool {
    match declarations(alloc, count) {
        Ok(text) => match parse_schema(alloc, text.as_str()) {
            Ok(schema) => schema.as_slice().len() == count,
            Err(_) => false,
        },
        Err(_) => false,
    }
}

#[test]
fn long_texts_have_trees(rt: HostRuntime) {
    assert!(rt; are_read(rt.alloc(), 200_000));
}
