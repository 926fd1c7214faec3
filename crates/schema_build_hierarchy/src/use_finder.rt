ghost use Rattle.schema_resolve_definitions.specs.Tests.{tests_of};
ghost use Rattle.schema_build_hierarchy.specs.Rows.{AreOwnButActions};

use cedar_identifiers::InternalName;
use schema_resolve_lookup::{DeclaredDefs, FragmentDefs};
use std::alloc::Global;

// The uses met so far of entity types that are defined and not declared.
#[derive(Drop)]
pub(crate) struct UseFinder<'d, 'f, 'g> {
    pub(crate) alloc: Global,
    pub(crate) defs: &'d FragmentDefs<'f>,
    pub(crate) own: DeclaredDefs<'g>,
    pub(crate) uses: Vec<InternalName>,
    pub(crate) ghost whole: { AreOwnButActions (tests_of defs.now) (tests_of own) },
}
