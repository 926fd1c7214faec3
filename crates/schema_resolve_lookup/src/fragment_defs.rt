ghost use Rattle.std.specs.Prelude.{◌≡◌, ◌++◌, [], ◌∷◌, IfOk};
ghost use Rattle.cedar_identifiers.specs.Names.{components_of};
ghost use Rattle.cedar_names.specs.Definitions.{among, among_actions};
ghost use Rattle.schema_resolve_definitions.specs.Defined.{defined};

use crate::builtins_in::hides_builtin;
use crate::declared_in::declares_action;
use crate::defined_in::{is_common_sought, is_entity_sought};
use crate::namespaces::Searched;
use crate::sought::{as_written, behind};
use cedar_data::Text;
use cedar_identifiers::{Id, InternalName, RawName};
use cedar_names::ExtensionTable;
use schema_json::Fragment;
use std::alloc::{AllocError, Global};
use std::marker::Model;

/// What is defined where a fragment stands alone under an extension table: contracts see three sets, as of `AllDefs`.
#[derive(Drop)]
pub struct FragmentDefs<'f> {
    searched: Searched<'f>,
    table: &'f ExtensionTable,
    // Whether the empty namespace declares the name of a builtin type.
    hides: bool,
}

impl<'f> Model for FragmentDefs<'f> {
    ghost use Rattle.cedar_names.specs.Definitions.{Definitions};
    ghost use Rattle.schema_resolve_definitions.specs.Defined.{defined};

    ghost Value = { Definitions };

    ghost use Rattle.std.specs.Prelude.{◌≡◌};
    ghost use Rattle.std.specs.List.{list_any};
    ghost use Rattle.schema_resolve_definitions.specs.Declarations.{declared};
    ghost use Rattle.schema_resolve_definitions.specs.Defined.{builtins, is_hidden};
    ghost use Rattle.schema_resolve_definitions.specs.Tests.{tests_of};

    ghost view = { λ d. defined d.searched.fragment.now d.table.now };

    ghost invariant = { λ d. d.hides ≡ list_any (is_hidden (tests_of (declared d.searched.fragment.now)))
        (builtins d.table.now) };
}

impl<'f> FragmentDefs<'f> {
    /// What is defined by this fragment and this table.
    pub fn new(
        alloc: Global,
        fragment: &'f Fragment<RawName>,
        table: &'f ExtensionTable,
    ) -> Result<FragmentDefs<'f>, AllocError>
        ensures { IfOk result (λ defs. defs ≡ defined fragment.now table.now) }
    {
        let searched = Searched::new(fragment);
        let hides = hides_builtin(alloc, &searched, table)?;
        Ok(FragmentDefs {
            searched,
            table,
            hides,
        })
    }

    /// Whether a common type of this name is defined.
    pub fn is_defined_as_common(&self, name: &InternalName) -> bool
        ensures { result ≡ among self.now.commons (components_of name.now) }
    {
        is_common_sought(&self.searched, self.table, self.hides, as_written(name))
    }

    /// Whether an entity type of this name is defined.
    pub fn is_defined_as_entity(&self, name: &InternalName) -> bool
        ensures { result ≡ among self.now.entities (components_of name.now) }
    {
        is_entity_sought(&self.searched, as_written(name))
    }

    /// Whether a common type with this last word is defined behind the namespace.
    pub fn is_defined_as_common_behind(&self, namespace: &InternalName, last: &Id) -> bool
        ensures { result ≡ among self.now.commons (components_of namespace.now ++ last.now.text ∷ []) }
    {
        let sought = behind(namespace, last);
        is_common_sought(&self.searched, self.table, self.hides, sought)
    }

    /// Whether an entity type with this last word is defined behind the namespace.
    pub fn is_defined_as_entity_behind(&self, namespace: &InternalName, last: &Id) -> bool
        ensures { result ≡ among self.now.entities (components_of namespace.now ++ last.now.text ∷ []) }
    {
        is_entity_sought(&self.searched, behind(namespace, last))
    }

    /// Whether the action with this type and this id is defined.
    pub fn is_defined_as_action_named(&self, ty: &InternalName, id: &Text) -> bool
        ensures { result ≡ among_actions self.now.actions (components_of ty.now, id.now) }
    {
        declares_action(&self.searched, as_written(ty), id)
    }

    /// Whether the action with this id is defined whose type has this last word behind the namespace.
    pub fn is_defined_as_action_behind(
        &self,
        namespace: &InternalName,
        last: &Id,
        id: &Text,
    ) -> bool
        ensures { result ≡ among_actions self.now.actions (components_of namespace.now ++ last.now.text ∷ [], id.now) }
    {
        declares_action(&self.searched, behind(namespace, last), id)
    }
}
