ghost use Rattle.std.specs.Prelude.{◌≡◌, [], List, IfOk, IfErr, OnOk};
ghost use Rattle.cedar_names.specs.Definitions.{Definitions};
ghost use Rattle.schema_resolve_definitions.specs.Tests.{tests_of};
ghost use Rattle.schema_resolve_targets.specs.Undefined.{Undefined};
ghost use Rattle.schema_resolve.specs.Faults.{NamesFirst};
ghost use Rattle.schema_resolve.specs.Renamings.{resolving};
ghost use Rattle.schema_resolve_targets.specs.Targets.{action_target_name, untargeted};
ghost use Rattle.schema_resolve_targets.specs.ReferenceParts.{by_reference};
ghost use Rattle.schema_resolve.specs.Renamed.{renamed, renamed_variant, renamed_record, renamed_attribute};
ghost use Rattle.schema_resolve.specs.Renamed.{renamed_context, renamed_entity, renamed_apply, renamed_uid};
ghost use Rattle.schema_resolve.specs.Renamed.{renamed_action, renamed_namespace};
ghost use Rattle.schema_json_walk.specs.Walk.{of_type, of_variant, of_record, of_attribute, of_entity, of_apply};
ghost use Rattle.schema_json_walk.specs.Walk.{of_uid, of_action, of_namespace};

use crate::rename_items::{rename_action, rename_apply, rename_context, rename_entity, rename_uid};
use crate::rename_namespaces::rename_namespace;
use crate::rename_types::{rename_attribute, rename_record, rename_type, rename_variant};
use crate::stop::or_error;
use cedar_identifiers::{ConditionalName, InternalName};
use cedar_names::AllDefs;
use schema_json::{
    ActionEntityUID, ActionType, ApplySpec, AttributesOrContext, EntityType, NamespaceDefinition,
    RecordType, Type, TypeOfAttribute, TypeVariant,
};
use schema_resolve_errors::ResolveError;
use std::alloc::Global;

/// What references mean, where it is known what is defined.
pub trait FullyQualify {
    /// What is given, with names in place of references.
    type Out;

    ghost resolved: { Definitions → Self → Self.Out };

    // the references that mean nothing, in the order of the walk
    ghost undefined: { Definitions → Self → List Undefined };

    /// What is given, with each reference replaced by the name of what it means, or the first reference of the walk
    /// that means nothing.
    fn fully_qualify_type_references(
        self,
        alloc: Global,
        all_defs: &AllDefs,
    ) -> Result<Self::Out, ResolveError>
        ensures out { IfOk result (λ out. out ≡ resolved all_defs.now self) }
        ensures defined { OnOk result (undefined all_defs.now self ≡ []) }
        ensures err { IfErr result (NamesFirst (undefined all_defs.now self)) };
}

impl FullyQualify for Type<ConditionalName> {
    type Out = Type<InternalName>;

    ghost resolved = { λ d. renamed (resolving (tests_of d)) };

    ghost undefined = { λ d. of_type (by_reference (untargeted (tests_of d))) };

    fn fully_qualify_type_references(
        self,
        alloc: Global,
        all_defs: &AllDefs,
    ) -> Result<Self::Out, ResolveError> {
        or_error(rename_type(alloc, all_defs, &self))
    }
}

impl FullyQualify for TypeVariant<ConditionalName> {
    type Out = TypeVariant<InternalName>;

    ghost resolved = { λ d. renamed_variant (resolving (tests_of d)) };

    ghost undefined = { λ d. of_variant (by_reference (untargeted (tests_of d))) };

    fn fully_qualify_type_references(
        self,
        alloc: Global,
        all_defs: &AllDefs,
    ) -> Result<Self::Out, ResolveError> {
        or_error(rename_variant(alloc, all_defs, &self))
    }
}

impl FullyQualify for RecordType<ConditionalName> {
    type Out = RecordType<InternalName>;

    ghost resolved = { λ d. renamed_record (resolving (tests_of d)) };

    ghost undefined = { λ d. of_record (by_reference (untargeted (tests_of d))) };

    fn fully_qualify_type_references(
        self,
        alloc: Global,
        all_defs: &AllDefs,
    ) -> Result<Self::Out, ResolveError> {
        or_error(rename_record(alloc, all_defs, &self))
    }
}

impl FullyQualify for TypeOfAttribute<ConditionalName> {
    type Out = TypeOfAttribute<InternalName>;

    ghost resolved = { λ d. renamed_attribute (resolving (tests_of d)) };

    ghost undefined = { λ d. of_attribute (by_reference (untargeted (tests_of d))) };

    fn fully_qualify_type_references(
        self,
        alloc: Global,
        all_defs: &AllDefs,
    ) -> Result<Self::Out, ResolveError> {
        or_error(rename_attribute(alloc, all_defs, &self))
    }
}

impl FullyQualify for AttributesOrContext<ConditionalName> {
    type Out = AttributesOrContext<InternalName>;

    ghost resolved = { λ d. renamed_context (resolving (tests_of d)) };

    ghost undefined = { λ d context. of_type (by_reference (untargeted (tests_of d))) context.0 };

    fn fully_qualify_type_references(
        self,
        alloc: Global,
        all_defs: &AllDefs,
    ) -> Result<Self::Out, ResolveError> {
        or_error(rename_context(alloc, all_defs, &self))
    }
}

impl FullyQualify for EntityType<ConditionalName> {
    type Out = EntityType<InternalName>;

    ghost resolved = { λ d. renamed_entity (resolving (tests_of d)) };

    ghost undefined = { λ d. of_entity (by_reference (untargeted (tests_of d))) };

    fn fully_qualify_type_references(
        self,
        alloc: Global,
        all_defs: &AllDefs,
    ) -> Result<Self::Out, ResolveError> {
        or_error(rename_entity(alloc, all_defs, &self))
    }
}

impl FullyQualify for ApplySpec<ConditionalName> {
    type Out = ApplySpec<InternalName>;

    ghost resolved = { λ d. renamed_apply (resolving (tests_of d)) };

    ghost undefined = { λ d. of_apply (by_reference (untargeted (tests_of d))) };

    fn fully_qualify_type_references(
        self,
        alloc: Global,
        all_defs: &AllDefs,
    ) -> Result<Self::Out, ResolveError> {
        or_error(rename_apply(alloc, all_defs, &self))
    }
}

impl FullyQualify for ActionEntityUID<ConditionalName> {
    type Out = ActionEntityUID<InternalName>;

    ghost resolved = { λ d. renamed_uid (resolving (tests_of d)) (action_target_name (tests_of d)) };

    ghost undefined = { λ d. of_uid (by_reference (untargeted (tests_of d))) };

    fn fully_qualify_type_references(
        self,
        alloc: Global,
        all_defs: &AllDefs,
    ) -> Result<Self::Out, ResolveError> {
        or_error(rename_uid(alloc, all_defs, &self))
    }
}

impl FullyQualify for ActionType<ConditionalName> {
    type Out = ActionType<InternalName>;

    ghost resolved = { λ d. renamed_action (resolving (tests_of d)) (action_target_name (tests_of d)) };

    ghost undefined = { λ d. of_action (by_reference (untargeted (tests_of d))) };

    fn fully_qualify_type_references(
        self,
        alloc: Global,
        all_defs: &AllDefs,
    ) -> Result<Self::Out, ResolveError> {
        or_error(rename_action(alloc, all_defs, &self))
    }
}

impl FullyQualify for NamespaceDefinition<ConditionalName> {
    type Out = NamespaceDefinition<InternalName>;

    ghost resolved = { λ d. renamed_namespace (resolving (tests_of d)) (action_target_name (tests_of d)) };

    ghost undefined = { λ d. of_namespace (by_reference (untargeted (tests_of d))) };

    fn fully_qualify_type_references(
        self,
        alloc: Global,
        all_defs: &AllDefs,
    ) -> Result<Self::Out, ResolveError> {
        or_error(rename_namespace(alloc, all_defs, &self))
    }
}
