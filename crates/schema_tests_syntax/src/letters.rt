// Kinds as letters, by their places in the order of all kinds.

use schema_syntax_grammar::{ALL_KINDS, TokenKind};
use schema_tests_lines::Wanted;
use std::alloc::{AllocError, Global};

const LETTERS: &str = "ABCDEFGHIJKLMNOPQRSTUVWXYZabcde";

// The letter of the kind.
fn letter(kind: TokenKind) -> char {
    for (other, letter) in ALL_KINDS.iter().zip(LETTERS.chars()) {
        if *other == kind {
            return letter;
        }
    }
    '-'
}

// The kind of the letter.
fn kind_of(sought: char) -> Option<TokenKind> {
    for (kind, letter) in ALL_KINDS.iter().zip(LETTERS.chars()) {
        if letter == sought {
            return Some(*kind);
        }
    }
    None
}

/// The letter of the kind is found next.
pub fn find_kind(wanted: &mut Wanted<'_>, kind: TokenKind) {
    wanted.letter(letter(kind));
}

/// The letters of the kinds are found next.
pub fn find_kinds(wanted: &mut Wanted<'_>, kinds: &[TokenKind]) {
    for kind in kinds {
        find_kind(wanted, *kind);
    }
}

/// Are these the letters of the kinds?
pub fn are(kinds: &[TokenKind], letters: &str) -> bool {
    let mut wanted = Wanted::new(letters);
    find_kinds(&mut wanted, kinds);
    wanted.is_met()
}

/// The kinds that the letters stand for.
pub fn kinds_of(alloc: Global, letters: &str) -> Result<Vec<TokenKind>, AllocError> {
    let mut kinds = Vec::new(alloc);
    for letter in letters.chars() {
        if let Some(kind) = kind_of(letter) {
            kinds.push(kind)?;
        }
    }
    Ok(kinds)
}
