// The name of the namespace around a place.

ghost use Rattle.std.specs.Prelude.{◌≡◌, [], ◌∷◌, true, IfOk, MatchOption, slice_range};
ghost use Rattle.std.specs.List.{All};
ghost use Rattle.cedar_identifiers.specs.Names.{texts_of};
ghost use Rattle.cedar_identifiers.specs.Words.{is_id};
ghost use Rattle.schema_syntax_tokens.specs.Scans.{IsPlaced};
ghost use Rattle.schema_assist_places.specs.Names.{path_of};
ghost use Rattle.schema_assist_words.specs.Namespaces.{written_words, IsNameOfWords, IsWordAdded, AreWordsAdded};

use cedar_data::{Text, is_word};
use cedar_identifiers::{Id, InternalName, is_reserved};
use schema_assist_places::names::path_around;
use schema_syntax_tokens::{ShortToken, token_text};
use std::alloc::{AllocError, Global};

// Whether the word may stand in a name.
fn is_id(word: &str) -> bool
    ensures { result ≡ is_id word.now }
{
    is_word(word) && !is_reserved(word)
}

// The text as a word of a name.
fn id_of(text: Text) -> Id
    requires { is_id text ≡ true }
    ensures { result.text ≡ text }
{
    Id { text }
}

// Adds the word of a text as one of a name; false where it is none.
fn push_word(alloc: Global, ids: &mut Vec<Id>, word: &str) -> Result<bool, AllocError>
    ensures { IfOk result (λ added. IsWordAdded (texts_of ids.old.items) (texts_of ids.new.items) word.now added) }
{
    if !is_id(word) {
        return Ok(false);
    }
    let text = Text::from_str(alloc, word)?;
    ids.push(id_of(text))?;
    Ok(true)
}

// What stands at the token's place.
fn text_of<'a>(text: &'a str, token: &ShortToken) -> &'a str
    requires { IsPlaced text.now token.now }
    ensures { result.now ≡ slice_range text.now token.now.loc.start token.now.loc.end }
{
    token_text(token, text).unwrap()
}

// Adds the token, where it is a word; false where that is no name.
fn push_token(
    alloc: Global,
    ids: &mut Vec<Id>,
    text: &str,
    token: &ShortToken,
) -> Result<bool, AllocError>
    requires { IsPlaced text.now token.now }
    ensures { IfOk result (λ added. AreWordsAdded (texts_of ids.old.items) (texts_of ids.new.items)
        (written_words text.now (token.now ∷ [])) added) }
{
    let kind = token.kind();
    if !kind.is_word() {
        return Ok(true);
    }
    push_word(alloc, ids, text_of(text, token))
}

/// The words among the tokens as a name, and `None` where there are none or one of them is no name.
pub fn name_of_words(
    alloc: Global,
    text: &str,
    tokens: &[ShortToken],
) -> Result<Option<InternalName>, AllocError>
    requires { All (IsPlaced text.now) tokens.now }
    ensures { IfOk result (IsNameOfWords (written_words text.now tokens.now)) }
{
    let mut ids = Vec::new(alloc);
    for token in tokens {
        if !push_token(alloc, &mut ids, text, token)? {
            return Ok(None);
        }
    }
    Ok(name_of_ids(ids))
}

// The name of these words, where there are any.
fn name_of_ids(mut ids: Vec<Id>) -> Option<InternalName>
    ensures { MatchOption result (ids.items ≡ []) (λ name. name.first ∷ name.others ≡ ids.items) }
{
    match ids.pop() {
        None => None,
        Some(last) => Some(InternalName::new(last, ids, None)),
    }
}

/// The name of the namespace whose word `namespace` is at this place of the tokens, and `None` where there is none or
/// it is no name.
pub fn namespace_around(
    alloc: Global,
    text: &str,
    tokens: &[ShortToken],
    space: Option<usize>,
) -> Result<Option<InternalName>, AllocError>
    requires { All (IsPlaced text.now) tokens.now }
    ensures { IfOk result (IsNameOfWords (written_words text.now (path_of (λ t. t.kind) tokens.now space))) }
{
    name_of_words(alloc, text, path_around(tokens, space))
}
