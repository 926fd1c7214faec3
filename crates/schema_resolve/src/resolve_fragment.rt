ghost use Rattle.std.specs.Prelude.{◌≡◌, [], List, IfOk, IfErr, OnOk};
ghost use Rattle.cedar_identifiers.specs.declared.internal_name.InternalName.{InternalName};
ghost use Rattle.cedar_names.specs.declared.extension_table.ExtensionTable.{ExtensionTable};
ghost use Rattle.schema_resolve_definitions.specs.Declarations.{name_of};
ghost use Rattle.schema_resolve_definitions.specs.Defined.{defined};
ghost use Rattle.schema_resolve_definitions.specs.Tests.{tests_of};
ghost use Rattle.schema_resolve.specs.Faults.{NamesFirst};
ghost use Rattle.schema_resolve.specs.Resolved.{resolving_in, meant_type, resolved};
ghost use Rattle.schema_resolve_targets.specs.Untargeted.{untargeted_in, undefined};
ghost use Rattle.schema_resolve_targets.specs.Undefined.{Undefined};

use crate::rename_fragments::{FragmentRenamer, rename_fragment};
use crate::rename_namespaces::rename_namespace;
use crate::resolver::Resolver;
use crate::scope::Scope;
use crate::stop::{Stop, or_error};
use cedar_identifiers::{InternalName, Name, RawName};
use cedar_names::ExtensionTable;
use schema_json::{Fragment, NamespaceDefinition};
use schema_resolve_definitions::declared::name_of;
use schema_resolve_errors::ResolveError;
use schema_resolve_lookup::FragmentDefs;
use std::alloc::Global;

/// What the names of a fragment mean where it stands alone.
pub trait ResolveFragment {
    /// The fragment of what the names mean.
    type Out;

    ghost resolved: { Self → ExtensionTable → Self.Out };

    // the references that mean nothing, in the order of the walk
    ghost undefined: { Self → ExtensionTable → List Undefined };

    /// The fragment with each reference as one to what it means under this table, or the first reference of the walk
    /// that means nothing.
    fn to_internal_name_fragment_with_resolved_types(
        &self,
        alloc: Global,
        table: &ExtensionTable,
    ) -> Result<Self::Out, ResolveError>
        ensures out { IfOk result (λ out. out ≡ resolved self.now table.now) }
        ensures defined { OnOk result (undefined self.now table.now ≡ []) }
        ensures err { IfErr result (NamesFirst (undefined self.now table.now)) };
}

// What each name in each namespace means.
impl<'f> FragmentRenamer<RawName, InternalName> for FragmentDefs<'f> {
    ghost becomes_in = { λ d ns. resolving_in (tests_of d) (name_of ns) };

    ghost action_becomes_in = { λ d ns. meant_type (tests_of d) (name_of ns) };

    ghost untargeted_in = { λ d ns. untargeted_in (tests_of d) (name_of ns) };

    fn rename_in(
        &self,
        alloc: Global,
        ns: &Option<Name>,
        definition: &NamespaceDefinition<RawName>,
    ) -> Result<NamespaceDefinition<InternalName>, Stop> {
        let scope = Scope { ns: name_of(ns) };
        rename_namespace(alloc, &Resolver { defs: self, scope }, definition)
    }
}

impl ResolveFragment for Fragment<RawName> {
    type Out = Fragment<InternalName>;

    ghost resolved = { λ f table. resolved (tests_of (defined f table)) f };

    ghost undefined = { λ f table. undefined (tests_of (defined f table)) f };

    fn to_internal_name_fragment_with_resolved_types(
        &self,
        alloc: Global,
        table: &ExtensionTable,
    ) -> Result<Fragment<InternalName>, ResolveError> {
        let defs = FragmentDefs::new(alloc, self, table)?;
        or_error(rename_fragment(alloc, &defs, self))
    }
}
