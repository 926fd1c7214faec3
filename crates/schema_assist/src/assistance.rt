// What may stand at a place of a text.

ghost use Rattle.std.specs.Prelude.{◌≡◌, ◌↔◌, List, ℕ, IfOk, IfErr, slice_range};
ghost use Rattle.std.specs.List.{All, Contains};
ghost use Rattle.std.specs.List.Sorted.{IsStrictlySortedBy};
ghost use Rattle.cedar_data.specs.Text.{text_cmp};
ghost use Rattle.schema_syntax_tokens.specs.Scans.{IsPlaced};
ghost use Rattle.schema_assist_words.specs.Refusals.{IsAssistRefusal};
ghost use Rattle.schema_assist_words.specs.Before.{IsWrittenWord};
ghost use Rattle.schema_assist_offers.specs.Offers.{offers, Completes};
ghost use Rattle.schema_assist_places.specs.Behind.{IsPlaceBehind};
ghost use Rattle.schema_syntax_tokens.specs.TokenLists.{kinds_of};
ghost use Rattle.schema_assist.specs.Assistance.{IsAssistance, IsNameBehind, words_around};

use cedar_data::{Loc, Text};
use cedar_identifiers::RawName;
use cedar_names::ExtensionTable;
use schema_assist_offers::laws::offered_in_no_namespace;
use schema_assist_offers::offers;
use schema_assist_places::laws::one_place;
use schema_assist_places::{Place, Standing};
use schema_assist_words::{AssistError, TextBefore, before, namespace_around};
use schema_json::Fragment;
use schema_syntax_grammar::TokenKind;
use schema_syntax_tokens::ShortToken;
use std::alloc::{AllocError, Global};

/// What may stand at a place of a text.
#[derive(Drop)]
pub struct Assistance {
    /// Where the word stands that is being written: it ends at the place, and is empty where no word is being written.
    /// The places are byte offsets.
    pub partial: Loc,
    /// The kinds of tokens that some schema has in place of that word, in the order of all kinds; `End` is the last of
    /// them where a schema may end there.
    pub expected: Vec<TokenKind>,
    /// The known names that may be written there and begin with that word, as they are spelled there. They rise by
    /// their bytes.
    pub names: Vec<Text>,
}

// What stands at the place of the partial word.
fn word_at<'a>(text: &'a str, partial: &Loc) -> &'a str
    requires { IsWrittenWord text.now partial.now }
    ensures { result.now ≡ slice_range text.now partial.now.start partial.now.end }
{
    partial.snippet(text).unwrap()
}

// The known names that may be written in the role and the namespace, and begin with the partial word.
fn names_at(
    alloc: Global,
    text: &str,
    front: &[ShortToken],
    partial: &Loc,
    place: Place,
    known: &Fragment<RawName>,
    table: &ExtensionTable,
) -> Result<Vec<Text>, AllocError>
    requires placed { All (IsPlaced text.now) front.now }
    requires word { IsWrittenWord text.now partial.now }
    ensures rising { IfOk result (λ names. IsStrictlySortedBy text_cmp names.items) }
    ensures offered { IfOk result (λ names. (s : List ℕ) → (Contains names.items s
        ↔ (offers known.now table.now place.role (words_around text.now front.now place.space) s
        × Completes s (slice_range text.now partial.now.start partial.now.end)))) }
{
    offered_in_no_namespace();
    let ns = namespace_around(alloc, text, front, place.space)?;
    let word = word_at(text, partial);
    offers(alloc, known, table, place.role, ns.as_ref(), word)
}

// The known names that may stand behind the tokens, where this may.
fn names_behind(
    alloc: Global,
    text: &str,
    front: &[ShortToken],
    partial: &Loc,
    place: Option<Place>,
    known: &Fragment<RawName>,
    table: &ExtensionTable,
) -> Result<Vec<Text>, AllocError>
    requires placed { All (IsPlaced text.now) front.now }
    requires word { IsWrittenWord text.now partial.now }
    requires place { IsPlaceBehind (kinds_of front.now) place }
    ensures rising { IfOk result (λ names. IsStrictlySortedBy text_cmp names.items) }
    ensures names { IfOk result (λ names. (s : List ℕ) → (Contains names.items s
        ↔ IsNameBehind text.now front.now partial.now known.now table.now s)) }
{
    one_place();
    match place {
        None => Ok(Vec::new(alloc)),
        Some(place) => names_at(alloc, text, front, partial, place, known, table),
    }
}

/// What may stand at the place of the text, a byte offset: the kinds of tokens, and of the known names those that may
/// be written there. The text before the place is read once; what stands behind it is not looked at.
///
/// It is refused where the place is none of the text, and where the text before the place has a fault other than that
/// it ends.
pub fn assist(
    alloc: Global,
    text: &str,
    at: usize,
    known: &Fragment<RawName>,
    table: &ExtensionTable,
) -> Result<Assistance, AssistError>
    ensures assistance { IfOk result (IsAssistance text.now at known.now table.now) }
    ensures refusal { IfErr result (IsAssistRefusal text.now at) }
{
    let TextBefore {
        partial,
        front,
        standing,
    } = before(alloc, text, at)?;
    let Standing { expected, place } = standing;
    let names = names_behind(alloc, text, &front, &partial, place, known, table)?;
    Ok(Assistance {
        partial,
        expected,
        names,
    })
}
