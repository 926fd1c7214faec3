ghost use Rattle.std.specs.Prelude.{◌≡◌, ◌++◌, [], ◌∷◌};
ghost use Rattle.cedar_identifiers.specs.Names.{components_of};
ghost use Rattle.schema_resolve_lookup.specs.Sought.{name_sought};

use cedar_identifiers::{Id, InternalName};

// A name that is looked up: the namespace that stands in it, if one does, and its last word.
#[derive(Clone, Copy)]
pub(crate) struct Sought<'a> {
    pub(crate) namespace: Option<Before<'a>>,
    pub(crate) last: &'a Id,
}

// The words of a namespace.
#[derive(Clone, Copy)]
pub(crate) struct Before<'a> {
    pub(crate) first: &'a Id,
    pub(crate) others: &'a [Id],
}

// The name as it is written.
pub(crate) fn as_written(name: &InternalName) -> Sought<'_>
    ensures { name_sought result ≡ components_of name.now }
{
    match name.others.as_slice() {
        [] => Sought {
            namespace: None,
            last: &name.first,
        },
        [others @ .., last] => Sought {
            namespace: Some(Before {
                first: &name.first,
                others,
            }),
            last,
        },
    }
}

// The name with this last word behind the namespace.
pub(crate) fn behind<'a>(namespace: &'a InternalName, last: &'a Id) -> Sought<'a>
    ensures { name_sought result ≡ components_of namespace.now ++ last.now.text ∷ [] }
{
    Sought {
        namespace: Some(Before {
            first: &namespace.first,
            others: namespace.others.as_slice(),
        }),
        last,
    }
}
