ghost use Rattle.std.specs.Prelude.{◌≡◌};
ghost use Rattle.cedar_identifiers.specs.Names.{components_of};
ghost use Rattle.cedar_names.specs.Definitions.{among, among_actions};
ghost use Rattle.schema_resolve_definitions.specs.Declarations.{declared};

use crate::declared_in::{declares_action, declares_common, declares_entity};
use crate::namespaces::Searched;
use crate::sought::as_written;
use cedar_data::Text;
use cedar_identifiers::{InternalName, RawName};
use schema_json::Fragment;
use std::marker::Model;

/// What a fragment declares and nothing else: contracts see three sets, as of `AllDefs`.
#[derive(Drop)]
pub struct DeclaredDefs<'f> {
    searched: Searched<'f>,
}

impl<'f> Model for DeclaredDefs<'f> {
    ghost use Rattle.cedar_names.specs.Definitions.{Definitions};
    ghost use Rattle.schema_resolve_definitions.specs.Declarations.{declared};

    ghost Value = { Definitions };

    ghost view = { λ d. declared d.searched.fragment.now };
}

impl<'f> DeclaredDefs<'f> {
    /// What this fragment declares.
    pub fn new(fragment: &'f Fragment<RawName>) -> DeclaredDefs<'f>
        ensures { result ≡ declared fragment.now }
    {
        DeclaredDefs {
            searched: Searched::new(fragment),
        }
    }

    /// Whether a common type of this name is declared.
    pub fn is_defined_as_common(&self, name: &InternalName) -> bool
        ensures { result ≡ among self.now.commons (components_of name.now) }
    {
        declares_common(&self.searched, as_written(name))
    }

    /// Whether an entity type of this name is declared.
    pub fn is_defined_as_entity(&self, name: &InternalName) -> bool
        ensures { result ≡ among self.now.entities (components_of name.now) }
    {
        declares_entity(&self.searched, as_written(name))
    }

    /// Whether the action with this type and this id is declared.
    pub fn is_defined_as_action_named(&self, ty: &InternalName, id: &Text) -> bool
        ensures { result ≡ among_actions self.now.actions (components_of ty.now, id.now) }
    {
        declares_action(&self.searched, as_written(ty), id)
    }
}
