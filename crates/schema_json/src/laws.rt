//! Laws of the comparisons of fragments. Each law is what its function ensures; the functions do nothing but cite laws.
ghost use Rattle.std.specs.Prelude.{◌≡◌, ◌↔◌, true};
ghost use Rattle.std.specs.Cmp.{IsEquivalence, IsTotalOrder};
ghost use Rattle.std.specs.Ordering.{eq_by_cmp};
ghost use Rattle.schema_json.specs.Comparisons.{IsLawfulComparison, HashesAlike};

use crate::action_type::{ActionEntityUID, ActionType, ApplySpec};
use crate::common_type::{CommonType, CommonTypeId};
use crate::entity_type::{AttributesOrContext, EntityType, EntityTypeKind, StandardEntityType};
use crate::fragment::{Fragment, NamespaceDefinition};
use crate::reserved::ReservedCommonTypeBasenameError;
use crate::types::{RecordType, Type, TypeOfAttribute, TypeVariant};
use cedar_data::lawful;
use cedar_identifiers::NameText;
use cedar_identifiers::laws::unreserved_ids_go_by_text;
use std::hash::Hash;

// `eq` is reflexive, symmetric and transitive, and `cmp` is a total order, by which values are level just where they
// are equal.
pub(crate) fn ordered<T: Ord>()
    ensures equivalence { IsEquivalence T.eq }
    ensures order { IsTotalOrder T.cmp }
    ensures agrees { (a b : T) → T.eq a b ≡ eq_by_cmp T.cmp a b }
{}

/// Comparisons of types are lawful for every lawful type of names: `eq` is reflexive, symmetric and transitive, and
/// `cmp` is a total order, by which two types are level exactly where they are equal.
pub fn types_are_lawful<N: Ord>()
    ensures types { IsLawfulComparison ⟦<Type<N> as PartialEq>⟧.eq ⟦<Type<N> as Ord>⟧.cmp }
    ensures shapes { IsLawfulComparison ⟦<TypeVariant<N> as PartialEq>⟧.eq ⟦<TypeVariant<N> as Ord>⟧.cmp }
    ensures records { IsLawfulComparison ⟦<RecordType<N> as PartialEq>⟧.eq ⟦<RecordType<N> as Ord>⟧.cmp }
    ensures attributes { IsLawfulComparison ⟦<TypeOfAttribute<N> as PartialEq>⟧.eq ⟦<TypeOfAttribute<N> as Ord>⟧.cmp }
{
    ordered::<Type<N>>();
    ordered::<TypeVariant<N>>();
    ordered::<RecordType<N>>();
    ordered::<TypeOfAttribute<N>>();
}

/// Comparisons of common types and entity types are lawful for every lawful type of names.
pub fn declared_types_are_lawful<N: Ord>()
    ensures common_ids { IsLawfulComparison ⟦<CommonTypeId as PartialEq>⟧.eq ⟦<CommonTypeId as Ord>⟧.cmp }
    ensures common_types { IsLawfulComparison ⟦<CommonType<N> as PartialEq>⟧.eq ⟦<CommonType<N> as Ord>⟧.cmp }
    ensures entity_types { IsLawfulComparison ⟦<EntityType<N> as PartialEq>⟧.eq ⟦<EntityType<N> as Ord>⟧.cmp }
    ensures kinds { IsLawfulComparison ⟦<EntityTypeKind<N> as PartialEq>⟧.eq ⟦<EntityTypeKind<N> as Ord>⟧.cmp }
    ensures standard { IsLawfulComparison ⟦<StandardEntityType<N> as PartialEq>⟧.eq
        ⟦<StandardEntityType<N> as Ord>⟧.cmp }
    ensures shapes { IsLawfulComparison ⟦<AttributesOrContext<N> as PartialEq>⟧.eq
        ⟦<AttributesOrContext<N> as Ord>⟧.cmp }
{
    ordered::<CommonTypeId>();
    ordered::<CommonType<N>>();
    ordered::<EntityType<N>>();
    ordered::<EntityTypeKind<N>>();
    ordered::<StandardEntityType<N>>();
    ordered::<AttributesOrContext<N>>();
}

/// Comparisons of actions, namespaces and fragments are lawful for every lawful type of names.
pub fn fragments_are_lawful<N: NameText + Ord>()
    ensures action_types { IsLawfulComparison ⟦<ActionType<N> as PartialEq>⟧.eq ⟦<ActionType<N> as Ord>⟧.cmp }
    ensures applies_to { IsLawfulComparison ⟦<ApplySpec<N> as PartialEq>⟧.eq ⟦<ApplySpec<N> as Ord>⟧.cmp }
    ensures action_uids { IsLawfulComparison ⟦<ActionEntityUID<N> as PartialEq>⟧.eq ⟦<ActionEntityUID<N> as Ord>⟧.cmp }
    ensures namespaces { IsLawfulComparison ⟦<NamespaceDefinition<N> as PartialEq>⟧.eq
        ⟦<NamespaceDefinition<N> as Ord>⟧.cmp }
    ensures fragments { IsLawfulComparison ⟦<Fragment<N> as PartialEq>⟧.eq ⟦<Fragment<N> as Ord>⟧.cmp }
{
    ordered::<ActionType<N>>();
    ordered::<ApplySpec<N>>();
    ordered::<ActionEntityUID<N>>();
    ordered::<NamespaceDefinition<N>>();
    ordered::<Fragment<N>>();
}

/// Equal types hash alike, for every lawful type of names.
pub fn types_hash_alike<N: Ord + Hash>()
    ensures types { HashesAlike ⟦<Type<N> as PartialEq>⟧.eq ⟦<Type<N> as Hash>⟧.hash_input }
    ensures shapes { HashesAlike ⟦<TypeVariant<N> as PartialEq>⟧.eq ⟦<TypeVariant<N> as Hash>⟧.hash_input }
    ensures records { HashesAlike ⟦<RecordType<N> as PartialEq>⟧.eq ⟦<RecordType<N> as Hash>⟧.hash_input }
    ensures attributes { HashesAlike ⟦<TypeOfAttribute<N> as PartialEq>⟧.eq ⟦<TypeOfAttribute<N> as Hash>⟧.hash_input }
{
    lawful::<Type<N>>();
    lawful::<TypeVariant<N>>();
    lawful::<RecordType<N>>();
    lawful::<TypeOfAttribute<N>>();
}

/// Equal common types and entity types hash alike, for every lawful type of names.
pub fn declared_types_hash_alike<N: Ord + Hash>()
    ensures common_ids { HashesAlike ⟦<CommonTypeId as PartialEq>⟧.eq ⟦<CommonTypeId as Hash>⟧.hash_input }
    ensures common_types { HashesAlike ⟦<CommonType<N> as PartialEq>⟧.eq ⟦<CommonType<N> as Hash>⟧.hash_input }
    ensures entity_types { HashesAlike ⟦<EntityType<N> as PartialEq>⟧.eq ⟦<EntityType<N> as Hash>⟧.hash_input }
    ensures kinds { HashesAlike ⟦<EntityTypeKind<N> as PartialEq>⟧.eq ⟦<EntityTypeKind<N> as Hash>⟧.hash_input }
    ensures standard { HashesAlike ⟦<StandardEntityType<N> as PartialEq>⟧.eq
        ⟦<StandardEntityType<N> as Hash>⟧.hash_input }
    ensures shapes { HashesAlike ⟦<AttributesOrContext<N> as PartialEq>⟧.eq
        ⟦<AttributesOrContext<N> as Hash>⟧.hash_input }
{
    lawful::<CommonTypeId>();
    lawful::<CommonType<N>>();
    lawful::<EntityType<N>>();
    lawful::<EntityTypeKind<N>>();
    lawful::<StandardEntityType<N>>();
    lawful::<AttributesOrContext<N>>();
}

/// Equal actions, namespaces and fragments hash alike, for every lawful type of names.
pub fn fragments_hash_alike<N: NameText + Ord + Hash>()
    ensures action_types { HashesAlike ⟦<ActionType<N> as PartialEq>⟧.eq ⟦<ActionType<N> as Hash>⟧.hash_input }
    ensures applies_to { HashesAlike ⟦<ApplySpec<N> as PartialEq>⟧.eq ⟦<ApplySpec<N> as Hash>⟧.hash_input }
    ensures action_uids { HashesAlike ⟦<ActionEntityUID<N> as PartialEq>⟧.eq ⟦<ActionEntityUID<N> as Hash>⟧.hash_input }
    ensures namespaces { HashesAlike ⟦<NamespaceDefinition<N> as PartialEq>⟧.eq
        ⟦<NamespaceDefinition<N> as Hash>⟧.hash_input }
    ensures fragments { HashesAlike ⟦<Fragment<N> as PartialEq>⟧.eq ⟦<Fragment<N> as Hash>⟧.hash_input }
{
    lawful::<ActionType<N>>();
    lawful::<ApplySpec<N>>();
    lawful::<ActionEntityUID<N>>();
    lawful::<NamespaceDefinition<N>>();
    lawful::<Fragment<N>>();
}

/// Refusals of common types are equal exactly where they are the same.
pub fn reserved_errors_by_value(
    a: &ReservedCommonTypeBasenameError,
    b: &ReservedCommonTypeBasenameError,
)
    ensures { ⟦<ReservedCommonTypeBasenameError as PartialEq>⟧.eq a.now b.now ≡ true ↔ a.now ≡ b.now }
{
    unreserved_ids_go_by_text(&a.id, &b.id);
}
