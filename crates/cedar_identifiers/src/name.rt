ghost use Rattle.std.specs.Prelude.{◌≡◌, false};
ghost use Rattle.cedar_identifiers.specs.Names.{components_of, has_cedar};

use crate::internal_name::InternalName;
use crate::name_fault::NameFault;
use crate::name_kind::NameKind;
use crate::name_reader::read_name;
use cedar_data::{CloneIn, Loc};
use std::alloc::{AllocError, Global};

/// A name without the component `__cedar`.
#[derive(PartialEq, Eq, PartialOrd, Ord, Hash)]
pub struct Name {
    pub name: InternalName,
    pub ghost unreserved: { has_cedar (components_of name) ≡ false },
}

impl Drop for Name {
    fn drop(self) {
        let Name { name: _name } = self;
    }
}

impl Name {
    ghost use Rattle.std.specs.Prelude.{true, None, IfOk, IfErr, MatchOption};
    ghost use Rattle.std.specs.Option.{option_copied};
    ghost use Rattle.cedar_identifiers.specs.NameReading.{ReadsAs, NameFaultOf};

    /// Reads a name without blanks in it, which has no place, or tells the fault that keeps the text from being one.
    pub fn from_normalized_str(alloc: Global, s: &str) -> Result<Name, NameFault>
        ensures ok { IfOk result (λ name. ReadsAs NameKind.Name s.now (components_of name.name)) }
        ensures placeless { IfOk result (λ name. name.name.loc ≡ None) }
        ensures err { IfErr result (NameFaultOf NameKind.Name s.now) }
    {
        let name = read_name(alloc, NameKind::Name, s)?;
        Ok(Name { name })
    }

    /// The name as one without `__cedar`, and `None` exactly where a component is `__cedar`.
    pub fn from_internal(name: InternalName) -> Option<Name>
        ensures { MatchOption result (has_cedar (components_of name) ≡ true) (λ declared. declared.name ≡ name) }
    {
        if name.has_cedar() {
            None
        } else {
            Some(Name { name })
        }
    }

    /// The name as one that may have any component.
    pub fn into_internal(self) -> InternalName
        ensures { result ≡ self.name }
    {
        let Name { name } = self;
        name
    }

    /// The name's place.
    pub fn loc(&self) -> Option<&Loc>
        ensures { option_copied result ≡ self.now.name.loc }
    {
        self.name.loc()
    }
}

impl CloneIn for Name {
    fn clone_in(&self, alloc: Global) -> Result<Self, AllocError> {
        Ok(Name {
            name: self.name.clone_in(alloc)?,
        })
    }
}
