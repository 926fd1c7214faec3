//! Laws of what types stand for. Each law is what its function ensures; the functions do nothing.
ghost use Rattle.schema_build_expand.specs.Scope.{Scope, AreDeclaredOnce};
ghost use Rattle.schema_build_expand.specs.Expands.{ExpandsOnce, AttributesExpandOnce};

/// A type stands for one plain type at most, where no common type is declared twice.
pub fn types_stand_for_one<N>()
    ensures { (s : Scope N) → AreDeclaredOnce s → ExpandsOnce s }
{}

/// Attributes stand for one list at most, where no common type is declared twice.
pub fn attributes_stand_for_one<N>()
    ensures { (s : Scope N) → AreDeclaredOnce s → AttributesExpandOnce s }
{}
