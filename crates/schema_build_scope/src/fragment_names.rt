ghost use Rattle.std.specs.Prelude.{◌≡◌, IfOk};
ghost use Rattle.std.specs.List.Sorted.{IsStrictlySortedBy};
ghost use Rattle.std.specs.Map.{keys_of};
ghost use Rattle.cedar_names.specs.Orders.{names_in_order};
ghost use Rattle.schema_resolve_definitions.specs.Defined.{defined};
ghost use Rattle.schema_resolve_definitions.specs.Tests.{tests_of};
ghost use Rattle.schema_build_scope.specs.Commons.{commons_in_order};
ghost use Rattle.schema_build_scope.specs.LentCommons.{lent_commons};

use crate::lent_commons::{LentType, declared_commons};
use crate::names_in::NamesIn;
use crate::ranks::Recent;
use cedar_data::Map;
use cedar_identifiers::{InternalName, Name, NameText, RawName};
use cedar_names::ExtensionTable;
use schema_json::Fragment;
use schema_resolve_lookup::FragmentDefs;
use std::alloc::{AllocError, Global};
use std::marker::Model;

/// A fragment that stands alone under an extension table, with what is defined there and the common types that it
/// declares.
#[derive(Drop)]
pub struct FragmentNames<'f> {
    fragment: &'f Fragment<RawName>,
    table: &'f ExtensionTable,
    defs: FragmentDefs<'f>,
    commons: Map<InternalName, LentType<'f>>,
    // Where common types were looked up last.
    recent: Recent,
}

impl<'f> Model for FragmentNames<'f> {
    ghost use Rattle.std.specs.Prelude.{◌≡◌};
    ghost use Rattle.schema_resolve_definitions.specs.Defined.{defined};
    ghost use Rattle.schema_resolve_definitions.specs.Tests.{tests_of};
    ghost use Rattle.schema_build_scope.specs.Commons.{commons_in_order};
    ghost use Rattle.schema_build_scope.specs.LentCommons.{lent_commons};
    ghost use Rattle.schema_build_scope.specs.FragmentUnder.{FragmentUnder};
    ghost use Rattle.schema_json.specs.contracts.types.Type as written;
    ghost use Rattle.cedar_identifiers.specs.contracts.raw_name.RawName as raw;
    ghost use Rattle.std.specs.Coded.{codes};

    ghost Value = { FragmentUnder ⟦<RawName as NameText>⟧ };

    ghost coded = { Prim.hlevel (codes, (written.the_row raw.the_row).coded) };

    ghost view = { λ n. record { fragment = n.fragment.now; table = n.table.now } };

    ghost invariant = { λ n. (tests_of n.defs ≡ tests_of (defined n.fragment.now n.table.now))
        × (lent_commons n.commons ≡ commons_in_order n.fragment.now) };
}

impl<'f> FragmentNames<'f> {
    /// The names of this fragment under this table: the common types are put in order once.
    pub fn new(
        alloc: Global,
        fragment: &'f Fragment<RawName>,
        table: &'f ExtensionTable,
    ) -> Result<FragmentNames<'f>, AllocError>
        ensures fragment { IfOk result (λ names. names.fragment ≡ fragment.now) }
        ensures table { IfOk result (λ names. names.table ≡ table.now) }
    {
        let defs = FragmentDefs::new(alloc, fragment, table)?;
        let commons = declared_commons(alloc, fragment)?;
        let commons = Map::from_entries(alloc, commons)?;
        Ok(FragmentNames {
            fragment,
            table,
            defs,
            commons,
            recent: Recent::new(),
        })
    }

    /// The fragment.
    pub fn fragment(&self) -> &Fragment<RawName>
        ensures { result.now ≡ self.now.fragment }
    {
        self.fragment
    }

    /// The extension table.
    pub fn table(&self) -> &ExtensionTable
        ensures { result.now ≡ self.now.table }
    {
        self.table
    }

    /// All that is defined.
    pub fn defs(&self) -> &FragmentDefs<'f>
        ensures { tests_of result.now ≡ tests_of (defined self.now.fragment self.now.table) }
    {
        &self.defs
    }

    /// The declared common types, in the order of their full names.
    pub fn commons(&self) -> &[(InternalName, LentType<'f>)]
        ensures entries { lent_commons result.now ≡ commons_in_order self.now.fragment }
        ensures sorted { IsStrictlySortedBy names_in_order (keys_of result.now) }
    {
        self.commons.as_slice()
    }

    // Where common types were looked up last.
    pub(crate) fn recent(&self) -> &Recent {
        &self.recent
    }

    /// What the references mean that are written in this namespace.
    pub fn in_namespace<'n>(&'n self, ns: &'n Option<Name>) -> NamesIn<'n, 'f>
        ensures names { result.names.now ≡ self.now }
        ensures place { result.ns.now ≡ ns.now }
    {
        NamesIn { names: self, ns }
    }
}
