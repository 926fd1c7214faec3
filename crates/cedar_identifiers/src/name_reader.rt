// Names read from texts.
ghost use Rattle.std.specs.Prelude.{◌≡◌, ◌≢◌, [], ◌∷◌, Some, None, true, false, IfOk, IfErr, MatchOption, MatchResult};
ghost use Rattle.std.specs.Prelude.{find, codes, if◌then◌else◌};
ghost use Rattle.std.specs.Str.{bytes_eq};
ghost use Rattle.cedar_data.specs.Rows.{joined_by};
ghost use Rattle.cedar_data.specs.Words.{is_word};
ghost use Rattle.cedar_identifiers.specs.Names.{components_of, texts_of};
ghost use Rattle.cedar_identifiers.specs.NamePieces.{BeginsWith};
ghost use Rattle.cedar_identifiers.specs.Fronts.{StopsAt, IsRefusedWord, AreAllowed, word_texts};
ghost use Rattle.cedar_identifiers.specs.NameReading.{is_single, refuses, due_next, HasWords, ReadsAs, NameFaultOf};
ghost use Rattle.cedar_identifiers.specs.declared.name_fault.NameFault.TheVariants.{Reserved};

use crate::any_id::AnyId;
use crate::id::Id;
use crate::internal_name::InternalName;
use crate::name_fault::NameFault;
use crate::name_kind::NameKind;
use crate::name_pieces::{Front, next_front};
use crate::name_text::NameText;
use cedar_data::{List, Text, is_word};
use std::alloc::{AllocError, Global};

// Words, of which there is at least one.
#[derive(Drop)]
struct Words {
    first: AnyId,
    others: Vec<AnyId>,
}

// Whether the piece may stand behind a word.
fn separates(kind: NameKind, piece: &str) -> bool
    ensures { due_next (is_single kind) false piece.now ≡ (if result then Some true else None) }
{
    if kind.is_single() {
        false
    } else {
        piece == "::"
    }
}

// The word at the front, and what follows it.
fn word_at(alloc: Global, kind: NameKind, text: &str) -> Result<(AnyId, &str), NameFault>
    ensures ok { IfOk result (λ r. BeginsWith text.now (r.0.text ∷ []) r.1.now) }
    ensures err { IfErr result (StopsAt (is_single kind) true text.now) }
{
    match next_front(text) {
        Front::Over => Err(NameFault::End),
        Front::Nothing => Err(NameFault::Invalid),
        Front::Piece(piece, rest) => {
            let text = Text::from_str(alloc, piece)?;
            if is_word(piece) {
                Ok((AnyId { text }, rest))
            } else {
                Err(NameFault::Token(text))
            }
        }
    }
}

// What follows the `::` at the front, or nothing where the text ends.
fn past_separator(alloc: Global, kind: NameKind, text: &str) -> Result<Option<&str>, NameFault>
    ensures ok { IfOk result (λ r. MatchOption r (BeginsWith text.now [] []) (λ after. (is_single kind ≡ false)
        × BeginsWith text.now (codes "::" ∷ []) after.now)) }
    ensures err { IfErr result (StopsAt (is_single kind) false text.now) }
{
    match next_front(text) {
        Front::Over => Ok(None),
        Front::Nothing => Err(NameFault::Invalid),
        Front::Piece(piece, rest) => {
            if separates(kind, piece) {
                Ok(Some(rest))
            } else {
                Err(NameFault::Token(Text::from_str(alloc, piece)?))
            }
        }
    }
}

// The words of a name.
fn read_words(alloc: Global, kind: NameKind, text: &str) -> Result<Words, NameFault>
    ensures ok { IfOk result (λ w. HasWords kind text.now (word_texts (w.first ∷ w.others.items))) }
    ensures err { IfErr result (NameFaultOf kind text.now) }
{
    let (first, mut rest) = word_at(alloc, kind, text)?;
    let mut others = Vec::new(alloc);
    while let Some(after) = past_separator(alloc, kind, rest)? {
        let (word, next) = word_at(alloc, kind, after)?;
        others.push(word)?;
        rest = next;
    }
    Ok(Words { first, others })
}

// The word as a component, unless no component may be this word.
fn component(kind: NameKind, word: AnyId) -> Result<Id, NameFault>
    requires { kind ≢ NameKind.AnyId }
    ensures { MatchResult result (λ id. (id.text ≡ word.text) × (refuses kind word.text ≡ false))
        (λ f. (f ≡ Reserved word.text) × (refuses kind word.text ≡ true)) }
{
    if kind.refuses(word.as_str()) {
        let AnyId { text } = word;
        Err(NameFault::Reserved(text))
    } else {
        let AnyId { text } = word;
        Ok(Id { text })
    }
}

// The words as components, unless one of them may not be one.
fn components(alloc: Global, kind: NameKind, words: Vec<AnyId>) -> Result<Vec<Id>, NameFault>
    requires { kind ≢ NameKind.AnyId }
    ensures ok { IfOk result (λ ids. (texts_of ids.items ≡ word_texts words.items)
        × (find (refuses kind) (word_texts words.items) ≡ None)) }
    ensures err { IfErr result (IsRefusedWord kind (word_texts words.items)) }
{
    let mut ids = Vec::new(alloc);
    for word in words {
        ids.push(component(kind, word)?)?;
    }
    Ok(ids)
}

/// Reads any word.
pub(crate) fn read_any_id(alloc: Global, text: &str) -> Result<AnyId, NameFault>
    ensures ok { IfOk result (λ word. ReadsAs NameKind.AnyId text.now (word.text ∷ [])) }
    ensures err { IfErr result (NameFaultOf NameKind.AnyId text.now) }
{
    let Words { first, others } = read_words(alloc, NameKind::AnyId, text)?;
    drop(others);
    if first.as_str() == text {
        Ok(first)
    } else {
        Err(NameFault::NotNormalized)
    }
}

// Reads a name of this kind, which may have blanks in it.
fn read_components(alloc: Global, kind: NameKind, text: &str) -> Result<InternalName, NameFault>
    requires { kind ≢ NameKind.AnyId }
    ensures ok { IfOk result (λ name. AreAllowed kind text.now (components_of name)) }
    ensures placeless { IfOk result (λ name. name.loc ≡ None) }
    ensures err { IfErr result (NameFaultOf kind text.now) }
{
    let words = read_words(alloc, kind, text)?;
    let first = component(kind, words.first)?;
    let others = components(alloc, kind, words.others)?;
    Ok(InternalName {
        first,
        others: List::from_vec(others),
        loc: None,
    })
}

// Whether this is the name's text.
fn is_text_of(alloc: Global, name: &InternalName, text: &str) -> Result<bool, AllocError>
    ensures { IfOk result (λ same. same ≡ bytes_eq (joined_by (codes "::") (components_of name.now)) text.now) }
{
    let spelled = name.text(alloc)?;
    Ok(spelled.as_str() == text)
}

/// Reads a name of this kind.
pub(crate) fn read_name(
    alloc: Global,
    kind: NameKind,
    text: &str,
) -> Result<InternalName, NameFault>
    requires { kind ≢ NameKind.AnyId }
    ensures ok { IfOk result (λ name. ReadsAs kind text.now (components_of name)) }
    ensures placeless { IfOk result (λ name. name.loc ≡ None) }
    ensures err { IfErr result (NameFaultOf kind text.now) }
{
    let name = read_components(alloc, kind, text)?;
    if is_text_of(alloc, &name, text)? {
        Ok(name)
    } else {
        Err(NameFault::NotNormalized)
    }
}
