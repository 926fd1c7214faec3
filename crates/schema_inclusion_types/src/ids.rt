ghost use Rattle.std.specs.Prelude.{◌≡◌, IfOk};
ghost use Rattle.std.specs.Option.{option_copied};
ghost use Rattle.cedar_identifiers.specs.Names.{components_of};
ghost use Rattle.schema_inclusion_types.specs.Ids.{id_in, lost_in};

use cedar_data::{CloneIn, Map, Text};
use cedar_identifiers::Name;
use std::alloc::{AllocError, Global};

/// Ids of an entity type.
#[derive(Drop)]
pub struct TypeIds {
    /// An id that the old schema has.
    pub id: Text,
    /// An id that the old schema has and the new one has not.
    pub lost: Option<Text>,
}

/// Ids of entity types, by their names.
#[derive(Drop)]
pub struct Ids {
    pub rows: Map<Name, TypeIds>,
}

impl Ids {
    /// A copy of the type's id; the empty text where nothing is known of the type.
    pub fn id_of(&self, alloc: Global, name: &Name) -> Result<Text, AllocError>
        ensures { IfOk result (λ id. id ≡ id_in self.now.rows (components_of name.now.name)) }
    {
        match self.rows.get(name) {
            Some(ids) => ids.id.clone_in(alloc),
            None => Ok(Text::new(alloc)),
        }
    }

    /// The id of the type that the new schema has not.
    pub fn lost(&self, name: &Name) -> Option<&Text>
        ensures { option_copied result ≡ lost_in self.now.rows (components_of name.now.name) }
    {
        match self.rows.get(name) {
            Some(ids) => ids.lost.as_ref(),
            None => None,
        }
    }
}
