//! Laws of what the names of a fragment mean. Each law is what its function ensures; the functions do nothing.
ghost use Rattle.schema_build_expand.specs.Scope.{AreDeclaredOnce};
ghost use Rattle.schema_build_scope.specs.FragmentScope.{fragment_scope};
ghost use Rattle.schema_build_scope.specs.Parts.{IsAllKnown, AreTypesMeant};

use cedar_identifiers::RawName;
use cedar_names::ExtensionTable;
use schema_json::Fragment;

/// Where a fragment has no fault of extension types, of features or of references to types, each part of each declared
/// common type, shape, type of tags and context is meant.
pub fn types_are_meant(fragment: &Fragment<RawName>, table: &ExtensionTable)
    ensures { IsAllKnown fragment.now table.now → AreTypesMeant fragment.now table.now }
{}

/// No two declared common types have one full name.
pub fn common_types_are_declared_once(fragment: &Fragment<RawName>, table: &ExtensionTable)
    ensures { AreDeclaredOnce (fragment_scope fragment.now table.now) }
{}
