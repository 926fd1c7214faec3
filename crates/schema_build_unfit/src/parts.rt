ghost use Rattle.std.specs.Prelude.{◌≡◌, ◌∷◌, codes, MatchOption};
ghost use Rattle.std.specs.Str.{bytes_eq};
ghost use Rattle.cedar_identifiers.specs.Names.{components_of};
ghost use Rattle.cedar_names.specs.CanonicalText.{basename};
ghost use Rattle.schema_build_types.specs.declared.action.ValidatorActionId.{ValidatorActionId as Action};
ghost use Rattle.schema_build_types.specs.declared.entity_type.ValidatorEntityType.{ValidatorEntityType as EntityType};
ghost use Rattle.schema_build_unfit.specs.Parts.{IsMisnamed, IsEnumBelow, NoneIs, IsFirstThat, IsLeastName};

use cedar_data::{Shared, same_bytes};
use cedar_identifiers::Name;
use cedar_names::EntityUID;
use schema_build_types::{ValidatorActionId, ValidatorEntityType, ValidatorEntityTypeKind};
use std::cmp::Ordering;

// Whether the name's last component is `Action`.
fn is_action_type(name: &Name) -> bool
    ensures { result ≡ bytes_eq (basename (components_of name.now.name)) (codes "Action") }
{
    match name.name.others.as_slice().split_last() {
        Some((last, _)) => same_bytes(last.as_str(), "Action"),
        None => same_bytes(name.name.first.as_str(), "Action"),
    }
}

/// The first action whose type has another basename than `Action`.
pub fn first_misnamed(actions: &[(EntityUID, ValidatorActionId)]) -> Option<&EntityUID>
    ensures { MatchOption result (NoneIs IsMisnamed actions.now) (λ uid. (action : Action)
        × IsFirstThat IsMisnamed actions.now (uid.now, action)) }
{
    for (uid, _) in actions {
        if !is_action_type(&uid.ty) {
            return Some(uid);
        }
    }
    None
}

// The least of the names.
fn least<'a>(first: &'a Name, others: &'a [Shared<Name>]) -> &'a Name
    ensures { IsLeastName (first.now ∷ others.now) result.now }
{
    let mut least = first;
    for name in others {
        let name = name.get();
        match name.cmp(least) {
            Ordering::Less => least = name,
            Ordering::Equal | Ordering::Greater => {}
        }
    }
    least
}

// The least ancestor of an enumerated entity type.
fn enum_ancestor(ty: &ValidatorEntityType) -> Option<&Name>
    ensures { MatchOption result (IsEnumBelow ty.now → ⊥) (λ name. IsEnumBelow ty.now
        × IsLeastName ty.now.ancestors name.now) }
{
    match &ty.kind {
        ValidatorEntityTypeKind::Enum(_) => match ty.ancestors.as_slice().split_first() {
            Some((first, others)) => Some(least(first.get(), others)),
            None => None,
        },
        _ => None,
    }
}

/// The first enumerated entity type with ancestors, and the least ancestor of it.
pub fn first_enum_below(entities: &[(Name, ValidatorEntityType)]) -> Option<(&Name, &Name)>
    ensures { MatchOption result (NoneIs (λ e. IsEnumBelow e.1) entities.now) (λ found. (ty : EntityType)
        × IsFirstThat (λ e. IsEnumBelow e.1) entities.now (found.0.now, ty) × IsLeastName ty.ancestors found.1.now) }
{
    for (name, ty) in entities {
        if let Some(ancestor) = enum_ancestor(ty) {
            return Some((name, ancestor));
        }
    }
    None
}
