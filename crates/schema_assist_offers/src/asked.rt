ghost use Rattle.std.specs.Prelude.{◌≡◌, nat_eq};
ghost use Rattle.std.specs.List.{starts_with};

use cedar_identifiers::InternalName;
use schema_resolve_lookup::FragmentDefs;

// What is asked: what is defined, the namespace around the place, and what the names are to begin with.
#[derive(Drop)]
pub(crate) struct Asked<'d, 'f> {
    pub(crate) defs: &'d FragmentDefs<'f>,
    pub(crate) ns: Option<&'d InternalName>,
    pub(crate) front: &'d str,
}

// Whether the text begins so.
pub(crate) fn begins(text: &str, front: &str) -> bool
    ensures { result ≡ starts_with nat_eq text.now front.now }
{
    text.starts_with(front)
}
