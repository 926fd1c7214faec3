//! No comparison of fragments sees a place. Each law is what its function ensures; the functions do nothing.
ghost use Rattle.schema_json.specs.Comparisons.{IsPlaceless};
ghost use Rattle.schema_json.specs.Places.{erased_type, erased_variant, erased_record, erased_attribute};
ghost use Rattle.schema_json.specs.Places.{erased_common_type, erased_shape, erased_standard, erased_kind};
ghost use Rattle.schema_json.specs.Places.{erased_entity_type, erased_applies_to, erased_action_type, erased_namespace};
ghost use Rattle.schema_json.specs.Places.{erased_fragment};

use crate::action_type::{ActionEntityUID, ActionType, ApplySpec};
use crate::common_type::{CommonType, CommonTypeId};
use crate::entity_type::{AttributesOrContext, EntityType, EntityTypeKind, StandardEntityType};
use crate::fragment::{Fragment, NamespaceDefinition};
use crate::laws::ordered;
use crate::types::{RecordType, Type, TypeOfAttribute, TypeVariant};
use cedar_data::{List, NonEmpty, Set, Text};
use cedar_identifiers::{Annotations, Eid, Name, NameText, UnreservedId};

/// A type equals itself with every place in it erased, and so does each of its parts.
pub fn types_see_no_place<N: Ord>()
    ensures types { IsPlaceless ⟦<Type<N> as PartialEq>⟧.eq erased_type }
    ensures shapes { IsPlaceless ⟦<TypeVariant<N> as PartialEq>⟧.eq erased_variant }
    ensures records { IsPlaceless ⟦<RecordType<N> as PartialEq>⟧.eq erased_record }
    ensures attributes { IsPlaceless ⟦<TypeOfAttribute<N> as PartialEq>⟧.eq erased_attribute }
{
    ordered::<Annotations>();
    ordered::<UnreservedId>();
}

/// A common type and an entity type equal themselves with every place in them erased.
pub fn declared_types_see_no_place<N: Ord>()
    ensures common_types { IsPlaceless ⟦<CommonType<N> as PartialEq>⟧.eq erased_common_type }
    ensures entity_types { IsPlaceless ⟦<EntityType<N> as PartialEq>⟧.eq erased_entity_type }
    ensures kinds { IsPlaceless ⟦<EntityTypeKind<N> as PartialEq>⟧.eq erased_kind }
    ensures standard { IsPlaceless ⟦<StandardEntityType<N> as PartialEq>⟧.eq erased_standard }
    ensures shapes { IsPlaceless ⟦<AttributesOrContext<N> as PartialEq>⟧.eq erased_shape }
{
    types_see_no_place::<N>();
    ordered::<Annotations>();
    ordered::<NonEmpty<Eid>>();
    ordered::<List<N>>();
}

/// An action, a namespace and a fragment equal themselves with every place in them erased.
pub fn fragments_see_no_place<N: NameText + Ord>()
    ensures action_types { IsPlaceless ⟦<ActionType<N> as PartialEq>⟧.eq erased_action_type }
    ensures applies_to { IsPlaceless ⟦<ApplySpec<N> as PartialEq>⟧.eq erased_applies_to }
    ensures namespaces { IsPlaceless ⟦<NamespaceDefinition<N> as PartialEq>⟧.eq erased_namespace }
    ensures fragments { IsPlaceless ⟦<Fragment<N> as PartialEq>⟧.eq erased_fragment }
{
    declared_types_see_no_place::<N>();
    ordered::<Annotations>();
    ordered::<List<N>>();
    ordered::<Option<Set<Text>>>();
    ordered::<Option<List<ActionEntityUID<N>>>>();
    ordered::<Text>();
    ordered::<CommonTypeId>();
    ordered::<UnreservedId>();
    ordered::<Option<Name>>();
}
