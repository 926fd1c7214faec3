ghost use Rattle.std.specs.Prelude.{Option, IfOk, IsSome};
ghost use Rattle.cedar_identifiers.specs.declared.internal_name.InternalName.{InternalName};
ghost use Rattle.schema_build_expand.specs.Scope.{Scope};
ghost use Rattle.schema_build_expand.specs.Targets.{IsMeantTarget};
ghost use Rattle.schema_build_expand.specs.Ranks.{IsRankOf};

use cedar_identifiers::{Name, ReferenceType};
use schema_build_types::Type as BuiltType;
use std::alloc::{AllocError, Global};

/// What a reference means.
#[derive(Drop)]
pub enum Target {
    /// The entity type of this name.
    Entity(Name),
    /// The declared common type of this rank.
    Common(usize),
    /// A builtin common type, which stands for this type.
    Builtin(BuiltType),
}

/// What the references that are written in one namespace mean.
pub trait Meanings<N> {
    // what is declared, and what names mean in each namespace
    ghost scope: { Self → Scope N };

    // the namespace
    ghost place: { Self → Option InternalName };

    /// What a reference means that means something.
    fn target(&self, alloc: Global, kind: ReferenceType, name: &N) -> Result<Target, AllocError>
        requires { IsSome ((scope self.now).means (place self.now) kind name.now) }
        ensures { IfOk result (IsMeantTarget (scope self.now) (place self.now) kind name.now) };

    /// The rank of the declared common type that a reference means, if it means one.
    fn rank(
        &self,
        alloc: Global,
        kind: ReferenceType,
        name: &N,
    ) -> Result<Option<usize>, AllocError>
        ensures { IfOk result (IsRankOf (scope self.now) (place self.now) kind name.now) };
}
