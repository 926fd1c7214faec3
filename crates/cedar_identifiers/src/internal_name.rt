ghost use Rattle.std.specs.Prelude.{◌≡◌, ◌⊎◌, true, false, None, [], ◌∷◌, ◌++◌, IfOk, IfErr, IsOk};
ghost use Rattle.std.specs.Option.{option_copied};
ghost use Rattle.std.specs.List.{list_any};
ghost use Rattle.cedar_identifiers.specs.Words.{is_cedar};
ghost use Rattle.cedar_identifiers.specs.Names.{components_of, has_cedar};
ghost use Rattle.cedar_identifiers.specs.NameReading.{ReadsAs, NameFaultOf};
ghost use Rattle.cedar_identifiers.specs.Candidates.{is_unqualified, behind, qualified};

use crate::id::Id;
use crate::name_fault::NameFault;
use crate::name_kind::NameKind;
use crate::name_reader::read_name;
use crate::reserved::is_cedar;
use cedar_data::{CloneIn, List, Loc};
use std::alloc::{AllocError, Global};
use std::mem;

/// A name: its components, the outermost first, with a place that no comparison sees.
#[derive_where(PartialEq, Eq, PartialOrd, Ord, Hash)]
pub struct InternalName {
    /// The outermost component.
    pub first: Id,
    /// The components behind it, the outermost first.
    pub others: List<Id>,
    #[derive_where(skip(EqHashOrd))]
    pub loc: Option<Loc>,
}

impl Drop for InternalName {
    fn drop(self) {
        let InternalName {
            first: _first,
            others: _others,
            loc: _loc,
        } = self;
    }
}

impl InternalName {
    /// The name with this last component, behind a namespace, at this place.
    pub fn new(basename: Id, mut namespace: Vec<Id>, loc: Option<Loc>) -> InternalName
        ensures components { result.first ∷ result.others ≡ namespace.items ++ basename ∷ [] }
        ensures place { result.loc ≡ loc }
    {
        if namespace.is_empty() {
            return InternalName {
                first: basename,
                others: List::from_vec(namespace),
                loc,
            };
        }
        let first = mem::replace(&mut namespace[0], basename);
        namespace.rotate_left(1);
        InternalName {
            first,
            others: List::from_vec(namespace),
            loc,
        }
    }

    /// Reads a name without blanks in it, which has no place, or tells the fault that keeps the text from being one.
    pub fn from_normalized_str(alloc: Global, s: &str) -> Result<InternalName, NameFault>
        ensures ok { IfOk result (λ name. ReadsAs NameKind.InternalName s.now (components_of name)) }
        ensures placeless { IfOk result (λ name. name.loc ≡ None) }
        ensures err { IfErr result (NameFaultOf NameKind.InternalName s.now) }
    {
        read_name(alloc, NameKind::InternalName, s)
    }

    /// The name's place.
    pub fn loc(&self) -> Option<&Loc>
        ensures { option_copied result ≡ self.now.loc }
    {
        self.loc.as_ref()
    }

    /// Whether some component is `__cedar`.
    pub fn has_cedar(&self) -> bool
        ensures { result ≡ has_cedar (components_of self.now) }
    {
        if is_cedar(self.first.as_str()) {
            true
        } else {
            any_cedar(self.others.as_slice())
        }
    }

    // Whether the name has no namespace.
    pub(crate) fn is_unqualified(&self) -> bool
        ensures { result ≡ is_unqualified self.now }
    {
        self.others.as_slice().is_empty()
    }

    /// The name with the namespace before it, where there is one and the name is unqualified; else the name as it is.
    pub fn qualify_with(
        self,
        alloc: Global,
        ns: Option<&InternalName>,
    ) -> Result<InternalName, AllocError>
        ensures name { IfOk result (λ name. name ≡ qualified (option_copied ns.entry) self) }
        ensures as_is { (ns.entry ≡ None) ⊎ (is_unqualified self ≡ false) → IsOk result }
    {
        match ns {
            Some(ns) => {
                if self.is_unqualified() {
                    self.behind(alloc, ns)
                } else {
                    Ok(self)
                }
            }
            None => Ok(self),
        }
    }

    // The outermost component.
    pub(crate) fn into_first(self) -> Id
        ensures { result ≡ self.first }
    {
        let InternalName {
            first,
            others,
            loc: _loc,
        } = self;
        drop(others);
        first
    }

    // The name, which is unqualified, with the namespace before it.
    pub(crate) fn behind(self, alloc: Global, ns: &InternalName) -> Result<InternalName, AllocError>
        ensures { IfOk result (λ name. is_unqualified self ≡ true → name ≡ behind ns.now self) }
    {
        let InternalName { first, others, loc } = self;
        drop(others);
        let mut namespace = ns.others.clone_in(alloc)?;
        namespace.push(first)?;
        Ok(InternalName {
            first: ns.first.clone_in(alloc)?,
            others: namespace,
            loc,
        })
    }
}

// Whether one of the components is `__cedar`.
fn any_cedar(ids: &[Id]) -> bool
    ensures { result ≡ list_any (λ i. is_cedar i.text) ids.now }
{
    ids.iter().any(|id| is_cedar(id.as_str()))
}

impl CloneIn for InternalName {
    fn clone_in(&self, alloc: Global) -> Result<Self, AllocError> {
        Ok(InternalName {
            first: self.first.clone_in(alloc)?,
            others: self.others.clone_in(alloc)?,
            loc: self.loc,
        })
    }
}
