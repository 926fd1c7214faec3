ghost use Rattle.std.specs.Prelude.{◌≡◌, [], ◌∷◌, IfOk};
ghost use Rattle.std.specs.Option.{option_copied, option_map};
ghost use Rattle.cedar_identifiers.specs.Names.{components_of};
ghost use Rattle.cedar_names.specs.Meaning.{SchemaMeaning};
ghost use Rattle.schema_inclusion_values.specs.Admits.{an_entity};
ghost use Rattle.schema_inclusion_values.specs.Lost.{lost_tags, lost_parent, one_tag};
ghost use Rattle.schema_inclusion_values.specs.Seen.{value_of, entries_value, parents_value, schema_value};
ghost use Rattle.schema_inclusion_types.specs.Kinds.{plain};
ghost use Rattle.schema_inclusion_check.specs.Raw.{raw_names};
ghost use Rattle.schema_inclusion_check.specs.Told.{IsTold, parent_value};

use crate::missing::place_of;
use cedar_data::{CloneIn, List, Shared, Text};
use cedar_identifiers::Name;
use schema_build_types::Type;
use schema_inclusion_types::{Ids, lost_value, some_value};
use schema_inclusion_values::{SchemaValue, Val};
use std::alloc::{AllocError, Global};

// Tags with this one value, at the empty name.
fn one_tag(alloc: Global, value: Val) -> Result<List<(Text, Val)>, AllocError>
    ensures { IfOk result (λ es. entries_value es ≡ one_tag (value_of value)) }
{
    let mut tags = List::new(alloc);
    tags.push((Text::new(alloc), value))?;
    Ok(tags)
}

/// Tags that the old type allows and the new one does not.
pub fn lost_tags(
    alloc: Global,
    ids: &Ids,
    old: Option<&Type>,
    new: Option<&Type>,
) -> Result<Option<List<(Text, Val)>>, AllocError>
    ensures { IfOk result (λ found. (m n : SchemaMeaning) → IsTold ids.now.rows m n → option_map entries_value found
        ≡ lost_tags m n (option_map plain (option_copied old.entry)) (option_map plain (option_copied new.entry))) }
{
    match old {
        None => Ok(None),
        Some(old) => match new {
            None => Ok(Some(one_tag(alloc, some_value(alloc, ids, old)?)?)),
            Some(new) => match lost_value(alloc, ids, old, new)? {
                None => Ok(None),
                Some(value) => Ok(Some(one_tag(alloc, value)?)),
            },
        },
    }
}

/// A parent that the old ancestors allow and the new ones do not.
pub fn lost_parent(
    alloc: Global,
    ids: &Ids,
    old: &[Shared<Name>],
    new: &[Shared<Name>],
) -> Result<Option<(Name, Text)>, AllocError>
    ensures { IfOk result (λ found. (m n : SchemaMeaning) → IsTold ids.now.rows m n → option_map parent_value found
        ≡ lost_parent m n (raw_names old.now) (raw_names new.now)) }
{
    let mut next = 0;
    for shared in old {
        let name = shared.get();
        match place_of(new, next, shared) {
            None => {
                let id = ids.id_of(alloc, name)?;
                return Ok(Some((name.clone_in(alloc)?, id)));
            }
            Some(at) => next = at,
        }
        if let Some(id) = ids.lost(name) {
            let id = id.clone_in(alloc)?;
            return Ok(Some((name.clone_in(alloc)?, id)));
        }
    }
    Ok(None)
}

/// An entity of these parts.
pub fn entity_value(
    alloc: Global,
    name: &Name,
    id: Text,
    attrs: List<(Text, Val)>,
    tags: List<(Text, Val)>,
    parents: List<(Name, Text)>,
) -> Result<SchemaValue, AllocError>
    ensures { IfOk result (λ x. schema_value x ≡ an_entity (record {
      ty = components_of name.now.name;
      id = id;
      attributes = entries_value attrs;
      tags = entries_value tags;
      parents = parents_value parents;
    })) }
{
    Ok(SchemaValue::Entity {
        ty: name.clone_in(alloc)?,
        id,
        attrs,
        tags,
        parents,
    })
}

/// The parents of which there is this one.
pub fn one_parent(alloc: Global, parent: (Name, Text)) -> Result<List<(Name, Text)>, AllocError>
    ensures { IfOk result (λ ps. parents_value ps ≡ parent_value parent ∷ []) }
{
    let mut parents = List::new(alloc);
    parents.push(parent)?;
    Ok(parents)
}
