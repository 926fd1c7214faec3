ghost use Rattle.std.specs.Prelude.{◌≡◌, IfOk, false};
ghost use Rattle.std.specs.Cmp.Lexicographic.{slice_cmp};
ghost use Rattle.cedar_data.specs.Text.{text_cmp};
ghost use Rattle.cedar_identifiers.specs.Names.{components_of, has_cedar};
ghost use Rattle.cedar_names.specs.Definitions.{same_name};
ghost use Rattle.cedar_names.specs.CanonicalText.{namespace};
ghost use Rattle.schema_build_recovered.specs.Recovered.{IsKey};
ghost use Rattle.schema_build_recovered.specs.Places.{words_of, on_side};

use cedar_identifiers::{Id, Name};
use schema_build_recovered_types::names::name_of;
use std::alloc::{AllocError, Global};
use std::cmp::Ordering;

/// The words of a namespace, lent: the empty one has none. It is ordered by its words.
#[derive(Clone, Copy, PartialEq, Eq, PartialOrd, Ord)]
pub enum Words<'a> {
    /// The empty namespace.
    Empty,
    /// The outermost word, and those behind it.
    Some(&'a Id, &'a [Id]),
}

/// A namespace without `__cedar`.
#[derive(Clone, Copy, PartialEq, Eq, PartialOrd, Ord)]
pub struct Namespace<'a> {
    pub words: Words<'a>,
    pub ghost unreserved: { has_cedar (words_of words) ≡ false },
}

/// The namespace of a name.
pub fn namespace_of<'a>(name: &'a Name) -> Namespace<'a>
    ensures { words_of result.words ≡ namespace (components_of name.now.name) }
{
    match name.name.others.as_slice().split_last() {
        None => Namespace {
            words: Words::Empty,
        },
        Some((_, front)) => Namespace {
            words: Words::Some(&name.name.first, front),
        },
    }
}

/// The namespaces, compared by their words.
pub fn compare(a: Namespace<'_>, b: Namespace<'_>) -> Ordering
    ensures { result ≡ slice_cmp text_cmp (words_of a.entry.words) (words_of b.entry.words) }
{
    a.cmp(&b)
}

/// Whether the namespaces are one.
pub fn are_one(a: Namespace<'_>, b: Namespace<'_>) -> bool
    ensures { result ≡ same_name (words_of a.entry.words) (words_of b.entry.words) }
{
    compare(a, b).is_eq()
}

/// Whether the namespace is below the pivot, or whether it is not.
pub fn is_on_side(below: bool, pivot: Namespace<'_>, home: Namespace<'_>) -> bool
    ensures { result ≡ on_side below (words_of pivot.entry.words) (words_of home.entry.words) }
{
    let lower = compare(home, pivot).is_lt();
    if below { lower } else { !lower }
}

/// The key of a namespace in a fragment.
pub fn key_of(alloc: Global, namespace: Namespace<'_>) -> Result<Option<Name>, AllocError>
    ensures { IfOk result (IsKey (words_of namespace.entry.words)) }
{
    match namespace.words {
        Words::Empty => Ok(None),
        Words::Some(first, others) => {
            let name = name_of(alloc, first, others)?;
            Ok(Some(Name { name }))
        }
    }
}
