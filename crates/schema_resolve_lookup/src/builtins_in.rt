ghost use Rattle.std.specs.Prelude.{◌≡◌, ◌||◌, true, false, [], ◌∷◌, codes, Some, IfOk};
ghost use Rattle.std.specs.List.{list_any};
ghost use Rattle.std.specs.Str.{bytes_eq};
ghost use Rattle.cedar_identifiers.specs.Words.{is_id};
ghost use Rattle.cedar_names.specs.Definitions.{among, same_name};
ghost use Rattle.schema_resolve_definitions.specs.Declarations.{declared};
ghost use Rattle.schema_resolve_definitions.specs.Defined.{builtins, is_hidden, names_of_builtins};
ghost use Rattle.schema_resolve_definitions.specs.Tests.{tests_of};
ghost use Rattle.schema_resolve_lookup.specs.Sought.{name_sought, words_before};

use crate::declared_in::{declares_common, declares_entity};
use crate::namespaces::Searched;
use crate::sought::{Before, Sought};
use cedar_data::{Text, same_bytes};
use cedar_identifiers::{Id, UnreservedId, is_cedar};
use cedar_names::ExtensionTable;
use std::alloc::{AllocError, Global};

// Whether the name is that of a builtin type: behind `__cedar`, or by itself where the empty namespace does not declare
// it. Where none of these names may be hidden so, that is not looked up.
pub(crate) fn names_builtin(
    searched: &Searched<'_>,
    table: &ExtensionTable,
    may_hide: bool,
    sought: Sought<'_>,
) -> bool
    requires { may_hide ≡ false → list_any (is_hidden (tests_of (declared searched.now.fragment.now)))
        (builtins table.now) ≡ false }
    ensures { result ≡ among (names_of_builtins (tests_of (declared searched.now.fragment.now)) (builtins table.now))
        (name_sought sought.entry) }
{
    is_builtin_word(table, sought.last.as_str())
        && match sought.namespace {
            Some(before) => is_under_cedar(before),
            None => !may_hide || !is_declared(searched, sought),
        }
}

// Whether the empty namespace declares the name of a builtin type.
pub(crate) fn hides_builtin(
    alloc: Global,
    searched: &Searched<'_>,
    table: &ExtensionTable,
) -> Result<bool, AllocError>
    ensures { IfOk result (λ hides. hides ≡ list_any (is_hidden (tests_of (declared searched.now.fragment.now)))
        (builtins table.now)) }
{
    if hides_primitive(alloc, searched)? {
        return Ok(true);
    }
    Ok(hides_extension(searched, table.names.as_slice()))
}

// Whether the empty namespace declares the name of a primitive type.
fn hides_primitive(alloc: Global, searched: &Searched<'_>) -> Result<bool, AllocError>
    ensures { IfOk result (λ hides. hides
        ≡ list_any (is_hidden (tests_of (declared searched.now.fragment.now))) (codes "Bool" ∷ codes "Long"
        ∷ codes "String" ∷ [])) }
{
    let bool = Text::from_str(alloc, "Bool")?;
    let long = Text::from_str(alloc, "Long")?;
    let string = Text::from_str(alloc, "String")?;
    Ok(is_one_hidden(searched, bool, long, string))
}

// Whether the empty namespace declares a type with one of these words as its name.
fn is_one_hidden(searched: &Searched<'_>, first: Text, second: Text, third: Text) -> bool
    requires first { is_id first ≡ true }
    requires second { is_id second ≡ true }
    requires third { is_id third ≡ true }
    ensures { result ≡ list_any (is_hidden (tests_of (declared searched.now.fragment.now)))
        (first ∷ second ∷ third ∷ []) }
{
    let first = is_word_hidden(searched, first);
    let second = is_word_hidden(searched, second);
    let third = is_word_hidden(searched, third);
    first || second || third
}

// Whether the empty namespace declares a type with this word as its name.
fn is_word_hidden(searched: &Searched<'_>, word: Text) -> bool
    requires { is_id word ≡ true }
    ensures { result ≡ is_hidden (tests_of (declared searched.now.fragment.now)) word }
{
    is_hidden(searched, &Id { text: word })
}

// Whether the empty namespace declares one of these names.
fn hides_extension(searched: &Searched<'_>, names: &[UnreservedId]) -> bool
    ensures { result ≡ list_any (λ n. is_hidden (tests_of (declared searched.now.fragment.now)) n.id.text) names.now }
{
    names.iter().any(|name| is_hidden(searched, &name.id))
}

// Whether the empty namespace declares a type of this name.
fn is_hidden(searched: &Searched<'_>, word: &Id) -> bool
    ensures { result ≡ is_hidden (tests_of (declared searched.now.fragment.now)) word.now.text }
{
    is_declared(
        searched,
        Sought {
            namespace: None,
            last: word,
        },
    )
}

// Whether the namespace is `__cedar`.
fn is_under_cedar(before: Before<'_>) -> bool
    ensures { result ≡ same_name (words_before (Some before.entry)) (codes "__cedar" ∷ []) }
{
    before.others.is_empty() && is_cedar(before.first.as_str())
}

// Whether a type of this name is declared.
fn is_declared(searched: &Searched<'_>, sought: Sought<'_>) -> bool
    ensures { result ≡ (among (declared searched.now.fragment.now).commons (name_sought sought.entry)
        || among (declared searched.now.fragment.now).entities (name_sought sought.entry)) }
{
    declares_common(searched, sought) || declares_entity(searched, sought)
}

// Whether the word is the name of a primitive type or of an extension type.
fn is_builtin_word(table: &ExtensionTable, word: &str) -> bool
    ensures { result ≡ list_any (bytes_eq word.now) (builtins table.now) }
{
    is_primitive_word(word) || table.has(word)
}

// Whether the word is the name of a primitive type.
fn is_primitive_word(word: &str) -> bool
    ensures { result ≡ list_any (bytes_eq word.now) (codes "Bool" ∷ codes "Long" ∷ codes "String" ∷ []) }
{
    same_bytes(word, "Bool") || same_bytes(word, "Long") || same_bytes(word, "String")
}
