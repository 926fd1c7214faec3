ghost use Rattle.std.specs.Prelude.{◌≡◌, [], ◌∷◌, None, IfOk, IfErr};
ghost use Rattle.std.specs.Option.{option_copied};
ghost use Rattle.cedar_identifiers.specs.Names.{components_of};
ghost use Rattle.cedar_identifiers.specs.NameReading.{ReadsAs, NameFaultOf};
ghost use Rattle.cedar_identifiers.specs.Candidates.{candidates};

use crate::conditional_name::ConditionalName;
use crate::internal_name::InternalName;
use crate::name_fault::NameFault;
use crate::name_kind::NameKind;
use crate::name_reader::read_name;
use crate::reference_type::ReferenceType;
use cedar_data::{CloneIn, Loc, NonEmpty};
use std::alloc::{AllocError, Global};

/// A name as it was written, which a namespace may still qualify.
#[derive(PartialEq, Eq, PartialOrd, Ord, Hash)]
pub struct RawName {
    pub name: InternalName,
}

impl Drop for RawName {
    fn drop(self) {
        let RawName { name: _name } = self;
    }
}

impl RawName {
    /// Reads a name without blanks in it, which has no place, or tells the fault that keeps the text from being one.
    pub fn from_normalized_str(alloc: Global, s: &str) -> Result<RawName, NameFault>
        ensures ok { IfOk result (λ name. ReadsAs NameKind.InternalName s.now (components_of name.name)) }
        ensures placeless { IfOk result (λ name. name.name.loc ≡ None) }
        ensures err { IfErr result (NameFaultOf NameKind.InternalName s.now) }
    {
        let name = read_name(alloc, NameKind::InternalName, s)?;
        Ok(RawName { name })
    }

    /// The name, as one that was written so.
    pub fn from_internal(name: InternalName) -> RawName
        ensures { result ≡ record { name = name } }
    {
        RawName { name }
    }

    /// The name as it was written.
    pub fn into_internal(self) -> InternalName
        ensures { result ≡ self.name }
    {
        let RawName { name } = self;
        name
    }

    /// The name's place.
    pub fn loc(&self) -> Option<&Loc>
        ensures { option_copied result ≡ self.now.name.loc }
    {
        self.name.loc()
    }

    /// The reference that the name is in this namespace, which asks for that.
    pub fn conditionally_qualify_with(
        self,
        alloc: Global,
        ns: Option<&InternalName>,
        kind: ReferenceType,
    ) -> Result<ConditionalName, AllocError>
        ensures { IfOk result (λ name. name ≡ record {
          possibilities = candidates (option_copied ns.entry) self.name;
          raw = self;
          reference_type = kind;
        }) }
    {
        let possibilities = candidates(alloc, ns, &self.name)?;
        Ok(ConditionalName {
            possibilities,
            raw: self,
            reference_type: kind,
        })
    }
}

// What the name may stand for in this namespace: qualified by it, then as it is; and just as it is where it has a
// namespace of its own, or there is none.
fn candidates(
    alloc: Global,
    ns: Option<&InternalName>,
    name: &InternalName,
) -> Result<NonEmpty<InternalName>, AllocError>
    ensures { IfOk result (λ names. names ≡ candidates (option_copied ns.entry) name.now) }
{
    let copy = name.clone_in(alloc)?;
    match ns {
        Some(ns) => {
            if name.is_unqualified() {
                pair(alloc, name.clone_in(alloc)?.behind(alloc, ns)?, copy)
            } else {
                Ok(NonEmpty::new(alloc, copy))
            }
        }
        None => Ok(NonEmpty::new(alloc, copy)),
    }
}

// The list of the two names.
fn pair(
    alloc: Global,
    first: InternalName,
    second: InternalName,
) -> Result<NonEmpty<InternalName>, AllocError>
    ensures { IfOk result (λ names. names ≡ first ∷ second ∷ []) }
{
    let mut names = Vec::new(alloc);
    names.push(first)?;
    names.push(second)?;
    Ok(NonEmpty::from_vec(names).unwrap())
}

impl CloneIn for RawName {
    fn clone_in(&self, alloc: Global) -> Result<Self, AllocError> {
        Ok(RawName {
            name: self.name.clone_in(alloc)?,
        })
    }
}
