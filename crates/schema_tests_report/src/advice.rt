// Advice on characters that begin no token, and on names that are not known.

use cedar_data::Text;
use schema_report::token_help;
use schema_report_likeness::did_you_mean;
use std::alloc::{AllocError, Global};

// Texts, bytes of them, and the advice there, which is empty where there is none.
const HELPS: [(&str, usize, &str); 15] = [
    (
        "\u{feff}entity",
        0,
        "a byte order mark (U+FEFF) stands here: save the file without one",
    ),
    (
        "e\0n\0",
        1,
        "a NUL character (U+0000) stands here: the file may be UTF-16, so save it as UTF-8",
    ),
    ("a \"b", 2, "a string that does not end"),
    (
        "'b'",
        0,
        "`'` (U+0027) begins no string: strings stand between `\"`",
    ),
    (
        "\u{201c}b",
        0,
        "`\u{201c}` (U+201C) begins no string: strings stand between `\"`",
    ),
    ("# b", 0, "a comment begins with `//`"),
    (
        "/* b */",
        0,
        "a comment begins with `//` and ends with its line",
    ),
    ("/b", 0, "`/` (U+002F) begins no token"),
    ("3b", 0, "a word cannot begin with a digit"),
    ("\u{e9}t\u{e9}", 0, "`\u{e9}` (U+00E9) begins no token"),
    ("\u{1f600}", 0, "`\u{1f600}` (U+1F600) begins no token"),
    (
        "\u{10ffff}\u{1b}",
        0,
        "`\u{10ffff}` (U+10FFFF) begins no token",
    ),
    ("\u{1b}", 0, "`\u{241b}` (U+001B) begins no token"),
    ("\u{e9}", 1, ""),
    ("a", 1, ""),
];

// Names, the known ones, and those that are like it.
const NAMES: [(&str, &str, &str); 4] = [
    ("Gruop", "Group Grape User Grou", "Group "),
    (
        "Principal",
        "Principle Principals principal Prince",
        "Principals principal Principle ",
    ),
    ("Ab", "Ac Abc B Ad Abcd", "Ac Abc Ad "),
    ("User", "Photo Album", ""),
];

fn helps(alloc: Global, text: &str, byte: usize, wanted: &str) -> bool {
    match token_help(alloc, text, byte) {
        Ok(Some(help)) => help.as_str() == wanted,
        Ok(None) => wanted.is_empty(),
        Err(_) => false,
    }
}

// The words of the line.
fn words(alloc: Global, line: &str) -> Result<Vec<Text>, AllocError> {
    let mut words = Vec::new(alloc);
    for word in line.split(' ') {
        words.push(Text::from_str(alloc, word)?)?;
    }
    Ok(words)
}

// Are the names that are like this one those of the line?
fn likes(alloc: Global, name: &str, known: &str, wanted: &str) -> Result<bool, AllocError> {
    let known = words(alloc, known)?;
    let name = Text::from_str(alloc, name)?;
    let mut said = Text::new(alloc);
    for found in &did_you_mean(alloc, &name, &known)? {
        said.push_text(found)?;
        said.push_str(" ")?;
    }
    Ok(said.as_str() == wanted)
}

#[test]
fn advice_agrees_with_tables(rt: HostRuntime) {
    for (text, byte, wanted) in &HELPS {
        assert!(rt; helps(rt.alloc(), text, *byte, wanted), "{wanted}");
    }
    for (name, known, wanted) in &NAMES {
        assert!(rt;
            likes(rt.alloc(), name, known, wanted) == Ok(true),
            "{name}"
        );
    }
}
