ghost use Rattle.std.specs.Prelude.{◌≡◌, Option, IfOk};
ghost use Rattle.std.specs.Option.{option_copied};
ghost use Rattle.cedar_identifiers.specs.declared.internal_name.InternalName.{InternalName};
ghost use Rattle.schema_resolve.specs.Renamings.{qualifying};
ghost use Rattle.schema_resolve_targets.specs.Qualified.{type_in_namespace};
ghost use Rattle.schema_resolve.specs.Renamed.{renamed, renamed_variant, renamed_record, renamed_attribute};
ghost use Rattle.schema_resolve.specs.Renamed.{renamed_context, renamed_entity, renamed_apply, renamed_uid};
ghost use Rattle.schema_resolve.specs.Renamed.{renamed_action, renamed_namespace};

use crate::rename_items::{rename_action, rename_apply, rename_context, rename_entity, rename_uid};
use crate::rename_namespaces::rename_namespace;
use crate::rename_types::{rename_attribute, rename_record, rename_type, rename_variant};
use crate::scope::{Scope, or_memory};
use cedar_identifiers::{ConditionalName, InternalName, RawName};
use schema_json::{
    ActionEntityUID, ActionType, ApplySpec, AttributesOrContext, EntityType, NamespaceDefinition,
    RecordType, Type, TypeOfAttribute, TypeVariant,
};
use std::alloc::{AllocError, Global};

/// What names refer to in a namespace.
pub trait Qualify {
    /// What is given, with references in place of names.
    type Out;

    ghost qualified: { Option InternalName → Self → Self.Out };

    /// What is given, with each name as a reference from this namespace, and with the type `Action` where an action has
    /// none.
    fn conditionally_qualify_type_references(
        self,
        alloc: Global,
        ns: Option<&InternalName>,
    ) -> Result<Self::Out, AllocError>
        ensures { IfOk result (λ out. out ≡ qualified (option_copied ns.entry) self) };
}

impl Qualify for Type<RawName> {
    type Out = Type<ConditionalName>;

    ghost qualified = { λ ns. renamed (qualifying ns) };

    fn conditionally_qualify_type_references(
        self,
        alloc: Global,
        ns: Option<&InternalName>,
    ) -> Result<Self::Out, AllocError> {
        or_memory(rename_type(alloc, &Scope { ns }, &self))
    }
}

impl Qualify for TypeVariant<RawName> {
    type Out = TypeVariant<ConditionalName>;

    ghost qualified = { λ ns. renamed_variant (qualifying ns) };

    fn conditionally_qualify_type_references(
        self,
        alloc: Global,
        ns: Option<&InternalName>,
    ) -> Result<Self::Out, AllocError> {
        or_memory(rename_variant(alloc, &Scope { ns }, &self))
    }
}

impl Qualify for RecordType<RawName> {
    type Out = RecordType<ConditionalName>;

    ghost qualified = { λ ns. renamed_record (qualifying ns) };

    fn conditionally_qualify_type_references(
        self,
        alloc: Global,
        ns: Option<&InternalName>,
    ) -> Result<Self::Out, AllocError> {
        or_memory(rename_record(alloc, &Scope { ns }, &self))
    }
}

impl Qualify for TypeOfAttribute<RawName> {
    type Out = TypeOfAttribute<ConditionalName>;

    ghost qualified = { λ ns. renamed_attribute (qualifying ns) };

    fn conditionally_qualify_type_references(
        self,
        alloc: Global,
        ns: Option<&InternalName>,
    ) -> Result<Self::Out, AllocError> {
        or_memory(rename_attribute(alloc, &Scope { ns }, &self))
    }
}

impl Qualify for AttributesOrContext<RawName> {
    type Out = AttributesOrContext<ConditionalName>;

    ghost qualified = { λ ns. renamed_context (qualifying ns) };

    fn conditionally_qualify_type_references(
        self,
        alloc: Global,
        ns: Option<&InternalName>,
    ) -> Result<Self::Out, AllocError> {
        or_memory(rename_context(alloc, &Scope { ns }, &self))
    }
}

impl Qualify for EntityType<RawName> {
    type Out = EntityType<ConditionalName>;

    ghost qualified = { λ ns. renamed_entity (qualifying ns) };

    fn conditionally_qualify_type_references(
        self,
        alloc: Global,
        ns: Option<&InternalName>,
    ) -> Result<Self::Out, AllocError> {
        or_memory(rename_entity(alloc, &Scope { ns }, &self))
    }
}

impl Qualify for ApplySpec<RawName> {
    type Out = ApplySpec<ConditionalName>;

    ghost qualified = { λ ns. renamed_apply (qualifying ns) };

    fn conditionally_qualify_type_references(
        self,
        alloc: Global,
        ns: Option<&InternalName>,
    ) -> Result<Self::Out, AllocError> {
        or_memory(rename_apply(alloc, &Scope { ns }, &self))
    }
}

impl Qualify for ActionEntityUID<RawName> {
    type Out = ActionEntityUID<ConditionalName>;

    ghost qualified = { λ ns. renamed_uid (qualifying ns) (type_in_namespace ns) };

    fn conditionally_qualify_type_references(
        self,
        alloc: Global,
        ns: Option<&InternalName>,
    ) -> Result<Self::Out, AllocError> {
        or_memory(rename_uid(alloc, &Scope { ns }, &self))
    }
}

impl Qualify for ActionType<RawName> {
    type Out = ActionType<ConditionalName>;

    ghost qualified = { λ ns. renamed_action (qualifying ns) (type_in_namespace ns) };

    fn conditionally_qualify_type_references(
        self,
        alloc: Global,
        ns: Option<&InternalName>,
    ) -> Result<Self::Out, AllocError> {
        or_memory(rename_action(alloc, &Scope { ns }, &self))
    }
}

impl Qualify for NamespaceDefinition<RawName> {
    type Out = NamespaceDefinition<ConditionalName>;

    ghost qualified = { λ ns. renamed_namespace (qualifying ns) (type_in_namespace ns) };

    fn conditionally_qualify_type_references(
        self,
        alloc: Global,
        ns: Option<&InternalName>,
    ) -> Result<Self::Out, AllocError> {
        or_memory(rename_namespace(alloc, &Scope { ns }, &self))
    }
}
