ghost use Rattle.std.specs.Prelude.{◌≡◌};

use crate::action::ValidatorActionId;
use crate::entity_type::ValidatorEntityType;
use cedar_identifiers::Name;
use cedar_names::EntityUID;
use std::marker::Model;

/// A value under its key, as it stands among entries.
pub trait Keyed {
    /// What the entries are ordered by.
    type Key: Ord;

    /// What stands under the key.
    type Value;

    /// The key and the value.
    ghost pair: { Self → Self.Key × Self.Value };

    /// The key, lent.
    fn key(&self) -> &Self::Key
        ensures { result.now ≡ (pair self.now).0 };

    /// The value, lent.
    fn value(&self) -> &Self::Value
        ensures { result.now ≡ (pair self.now).1 };
}

/// An entity type of a built schema under its name. Contracts see the pair of the two.
pub struct EntityTypeEntry {
    pub name: Name,
    pub ty: ValidatorEntityType,
}

impl Drop for EntityTypeEntry {
    fn drop(self) {
        let EntityTypeEntry {
            name: _name,
            ty: _ty,
        } = self;
    }
}

impl Model for EntityTypeEntry {
    ghost use Rattle.std.specs.Coded.{codes};
    ghost use Rattle.cedar_identifiers.specs.declared.name.Name.{Name};
    ghost use Rattle.schema_build_types.specs.contracts.types.Type as built;
    ghost use Rattle.schema_build_types.specs.declared.entity_type.ValidatorEntityType.{ValidatorEntityType};

    ghost Value = { Name × ValidatorEntityType };

    ghost coded = { Prim.hlevel (codes, built.the_row.coded) };

    ghost view = { λ e. (e.name, e.ty) };
}

impl Keyed for EntityTypeEntry {
    type Key = Name;

    type Value = ValidatorEntityType;

    ghost pair = { λ e. e };

    fn key(&self) -> &Name {
        &self.name
    }

    fn value(&self) -> &ValidatorEntityType {
        &self.ty
    }
}

/// An action of a built schema under its type and id. Contracts see the pair of the two.
pub struct ActionEntry {
    pub uid: EntityUID,
    pub action: ValidatorActionId,
}

impl Drop for ActionEntry {
    fn drop(self) {
        let ActionEntry {
            uid: _uid,
            action: _action,
        } = self;
    }
}

impl Model for ActionEntry {
    ghost use Rattle.std.specs.Coded.{codes};
    ghost use Rattle.cedar_names.specs.declared.entity_uid.EntityUID.{EntityUID};
    ghost use Rattle.schema_build_types.specs.contracts.types.Type as built;
    ghost use Rattle.schema_build_types.specs.declared.action.ValidatorActionId.{ValidatorActionId};

    ghost Value = { EntityUID × ValidatorActionId };

    ghost coded = { Prim.hlevel (codes, built.the_row.coded) };

    ghost view = { λ a. (a.uid, a.action) };
}

impl Keyed for ActionEntry {
    type Key = EntityUID;

    type Value = ValidatorActionId;

    ghost pair = { λ a. a };

    fn key(&self) -> &EntityUID {
        &self.uid
    }

    fn value(&self) -> &ValidatorActionId {
        &self.action
    }
}
