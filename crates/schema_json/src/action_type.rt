ghost use Rattle.std.specs.Prelude.{◌≡◌, true};
ghost use Rattle.schema_json.specs.Presence.{is_where_due};

use crate::entity_type::AttributesOrContext;
use cedar_data::{CloneIn, List, Loc, Set, Text};
use cedar_identifiers::{Annotations, NameText};
use std::alloc::{AllocError, Global};

/// A declared action, with a place that no comparison sees.
#[derive_where(PartialEq, Eq, PartialOrd, Ord, Hash; N)]
pub struct ActionType<N: NameText> {
    /// The names of its attributes, where any were written.
    pub attributes: Option<Set<Text>>,
    /// What it may be applied to, where this was written.
    pub applies_to: Option<ApplySpec<N>>,
    /// Its parents, where any were written.
    pub member_of: Option<List<ActionEntityUID<N>>>,
    /// Whether another schema declares it.
    pub external: bool,
    pub annotations: Annotations,
    #[derive_where(skip(EqHashOrd))]
    pub loc: Option<Loc>,
}

impl<N: NameText + Drop> Drop for ActionType<N> {
    fn drop(self) {
        let ActionType {
            attributes: _attributes,
            applies_to: _applies_to,
            member_of: _member_of,
            external: _external,
            annotations: _annotations,
            loc: _loc,
        } = self;
    }
}

/// What an action may be applied to.
#[derive(Drop)]
#[derive_where(PartialEq, Eq, PartialOrd, Ord, Hash; N)]
pub struct ApplySpec<N> {
    /// The types of the resources.
    pub resource_types: List<N>,
    /// The types of the principals.
    pub principal_types: List<N>,
    /// The type of the context.
    pub context: AttributesOrContext<N>,
}

/// A reference to an action: its id, and its type, which only a name as written may leave out.
#[derive(Drop)]
#[derive_where(PartialEq, Eq, PartialOrd, Ord, Hash; N)]
pub struct ActionEntityUID<N: NameText> {
    pub id: Text,
    pub ty: Option<N>,
    pub ghost typed: { is_where_due N.TYPED ty ≡ true },
}

impl<N: CloneIn + NameText> CloneIn for ActionType<N> {
    fn clone_in(&self, alloc: Global) -> Result<Self, AllocError> {
        Ok(ActionType {
            attributes: self.attributes.clone_in(alloc)?,
            applies_to: self.applies_to.clone_in(alloc)?,
            member_of: self.member_of.clone_in(alloc)?,
            external: self.external,
            annotations: self.annotations.clone_in(alloc)?,
            loc: self.loc,
        })
    }
}

impl<N: CloneIn> CloneIn for ApplySpec<N> {
    fn clone_in(&self, alloc: Global) -> Result<Self, AllocError> {
        Ok(ApplySpec {
            resource_types: self.resource_types.clone_in(alloc)?,
            principal_types: self.principal_types.clone_in(alloc)?,
            context: self.context.clone_in(alloc)?,
        })
    }
}

impl<N: CloneIn + NameText> CloneIn for ActionEntityUID<N> {
    fn clone_in(&self, alloc: Global) -> Result<Self, AllocError> {
        Ok(ActionEntityUID {
            id: self.id.clone_in(alloc)?,
            ty: self.ty.clone_in(alloc)?,
        })
    }
}
