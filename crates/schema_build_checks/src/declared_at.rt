ghost use Rattle.std.specs.Prelude.{◌≡◌, codes, IfOk};
ghost use Rattle.std.specs.Str.{bytes_eq};
ghost use Rattle.schema_build_checks.specs.DeclaredAt.{declared_at};

use cedar_data::{CloneIn, List, Loc, same_bytes};
use cedar_identifiers::{Id, InternalName, Name};
use schema_resolve_definitions::declared::name_of;
use std::alloc::{AllocError, Global};

/// A name that is declared in a namespace, at the place of its declaration.
pub fn declared_at(
    alloc: Global,
    ns: &Option<Name>,
    id: &Id,
    loc: Option<Loc>,
) -> Result<InternalName, AllocError>
    ensures { IfOk result (λ name. name ≡ declared_at ns.now id.now loc) }
{
    let word = InternalName {
        first: id.clone_in(alloc)?,
        others: List::new(alloc),
        loc,
    };
    word.qualify_with(alloc, name_of(ns))
}

// Whether the word is `Action`.
pub(crate) fn is_action_word(word: &str) -> bool
    ensures { result ≡ bytes_eq word.now (codes "Action") }
{
    same_bytes(word, "Action")
}
