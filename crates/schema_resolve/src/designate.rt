ghost use Rattle.std.specs.Prelude.{◌≡◌, [], List, IfOk, IfErr, OnOk};
ghost use Rattle.cedar_names.specs.Definitions.{Definitions};
ghost use Rattle.schema_resolve_definitions.specs.Tests.{tests_of};
ghost use Rattle.schema_resolve.specs.Designated.{designating, type_as_written, undesignated};
ghost use Rattle.schema_resolve.specs.Faults.{NamesFirst};
ghost use Rattle.schema_resolve_targets.specs.ReferenceParts.{by_reference};
ghost use Rattle.schema_resolve.specs.Renamed.{renamed, renamed_namespace, renamed_fragment};
ghost use Rattle.schema_resolve_targets.specs.Undefined.{Undefined};
ghost use Rattle.schema_json_walk.specs.Walk.{of_type, of_namespace, of_fragment};

use crate::designator::Designator;
use crate::rename_fragments::{FragmentRenamer, rename_fragment};
use crate::rename_namespaces::rename_namespace;
use crate::rename_types::rename_type;
use crate::stop::{Stop, or_error};
use cedar_identifiers::{InternalName, Name};
use cedar_names::AllDefs;
use schema_json::{Fragment, NamespaceDefinition, Type};
use schema_resolve_errors::ResolveError;
use std::alloc::Global;

/// Which references that may mean a common type or an entity type mean which, where it is known what is defined.
pub trait Designate {
    ghost designated: { Definitions → Self → Self };

    // the names that stand where either kind may and are neither, in the order of the walk
    ghost undesignated: { Definitions → Self → List Undefined };

    /// What is given, with each reference that may mean either kind of type as a reference to a common type where its
    /// name is one, and else to an entity type. The error names the first whose name is neither. All else stays and is
    /// not looked up.
    fn resolve_entity_or_common_types(
        self,
        alloc: Global,
        all_defs: &AllDefs,
    ) -> Result<Self, ResolveError>
        ensures out { IfOk result (λ out. out ≡ designated all_defs.now self) }
        ensures defined { OnOk result (undesignated all_defs.now self ≡ []) }
        ensures err { IfErr result (NamesFirst (undesignated all_defs.now self)) };
}

impl Designate for Type<InternalName> {
    ghost designated = { λ d. renamed (designating (tests_of d)) };

    ghost undesignated = { λ d. of_type (by_reference (undesignated (tests_of d))) };

    fn resolve_entity_or_common_types(
        self,
        alloc: Global,
        all_defs: &AllDefs,
    ) -> Result<Self, ResolveError> {
        or_error(rename_type(alloc, &Designator { defs: all_defs }, &self))
    }
}

impl Designate for NamespaceDefinition<InternalName> {
    ghost designated = { λ d. renamed_namespace (designating (tests_of d)) type_as_written };

    ghost undesignated = { λ d. of_namespace (by_reference (undesignated (tests_of d))) };

    fn resolve_entity_or_common_types(
        self,
        alloc: Global,
        all_defs: &AllDefs,
    ) -> Result<Self, ResolveError> {
        or_error(rename_namespace(alloc, &Designator { defs: all_defs }, &self))
    }
}

impl<'a> FragmentRenamer<InternalName, InternalName> for Designator<'a> {
    ghost becomes_in = { λ d _. designating (tests_of d.defs.now) };

    ghost action_becomes_in = { λ _ _. type_as_written };

    ghost untargeted_in = { λ d _. undesignated (tests_of d.defs.now) };

    fn rename_in(
        &self,
        alloc: Global,
        _ns: &Option<Name>,
        definition: &NamespaceDefinition<InternalName>,
    ) -> Result<NamespaceDefinition<InternalName>, Stop> {
        rename_namespace(alloc, self, definition)
    }
}

impl Designate for Fragment<InternalName> {
    ghost designated = { λ d. renamed_fragment (λ _. designating (tests_of d)) (λ _. type_as_written) };

    ghost undesignated = { λ d. of_fragment (λ _. by_reference (undesignated (tests_of d))) };

    fn resolve_entity_or_common_types(
        self,
        alloc: Global,
        all_defs: &AllDefs,
    ) -> Result<Self, ResolveError> {
        or_error(rename_fragment(alloc, &Designator { defs: all_defs }, &self))
    }
}
