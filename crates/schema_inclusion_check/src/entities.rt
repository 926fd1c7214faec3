ghost use Rattle.std.specs.Prelude.{◌≡◌, [], ◌∷◌, Some, IfOk, IfSome};
ghost use Rattle.std.specs.Option.{option_copied, option_map};
ghost use Rattle.cedar_names.specs.Meaning.{SchemaMeaning};
ghost use Rattle.schema_inclusion_values.specs.Admits.{an_entity};
ghost use Rattle.schema_inclusion_values.specs.Ids.{first_id};
ghost use Rattle.schema_inclusion_values.specs.Lost.{with_id, lost_entity_between, lost_entity_to};
ghost use Rattle.schema_inclusion_values.specs.Seen.{entries_value, schema_value};
ghost use Rattle.schema_inclusion_types.specs.Kinds.{AreSorted};
ghost use Rattle.schema_inclusion_check.specs.Parts.{entity_meaning};
ghost use Rattle.schema_inclusion_check.specs.Told.{IsTold, parent_value};

use crate::choices::{first_id, first_refused, lost_choices};
use crate::entity_values::{entity_value, lost_parent, lost_tags, one_parent};
use crate::parts::EntityParts;
use cedar_data::{List, Text};
use cedar_identifiers::Name;
use schema_inclusion_types::{Ids, lost_record, some_entries};
use schema_inclusion_values::{SchemaValue, Val};
use std::alloc::{AllocError, Global};

// The entity with this id and with required attributes alone.
fn with_id(
    alloc: Global,
    ids: &Ids,
    old: &EntityParts<'_>,
    id: Text,
) -> Result<SchemaValue, AllocError>
    ensures { IfOk result (λ x. (m n : SchemaMeaning) → IsTold ids.now.rows m n
        → schema_value x ≡ an_entity (with_id m n (entity_meaning old.now) id)) }
{
    let attrs = some_entries(alloc, ids, old.attributes)?;
    entity_value(
        alloc,
        old.name,
        id,
        attrs,
        List::new(alloc),
        List::new(alloc),
    )
}

// The entity that stands first, with these attributes.
fn with_attributes(
    alloc: Global,
    old: &EntityParts<'_>,
    attrs: List<(Text, Val)>,
) -> Result<SchemaValue, AllocError>
    ensures { IfOk result (λ x. (m n : SchemaMeaning) → schema_value x ≡ an_entity (record
        (with_id m n (entity_meaning old.now) (first_id (entity_meaning old.now).choices))
        { attributes = entries_value attrs })) }
{
    let id = first_id(alloc, old.choices)?;
    entity_value(
        alloc,
        old.name,
        id,
        attrs,
        List::new(alloc),
        List::new(alloc),
    )
}

// The entity that stands first, with these tags.
fn with_tags(
    alloc: Global,
    ids: &Ids,
    old: &EntityParts<'_>,
    tags: List<(Text, Val)>,
) -> Result<SchemaValue, AllocError>
    ensures { IfOk result (λ x. (m n : SchemaMeaning) → IsTold ids.now.rows m n → schema_value x ≡ an_entity (record
        (with_id m n (entity_meaning old.now) (first_id (entity_meaning old.now).choices))
        { tags = entries_value tags })) }
{
    let id = first_id(alloc, old.choices)?;
    let attrs = some_entries(alloc, ids, old.attributes)?;
    entity_value(alloc, old.name, id, attrs, tags, List::new(alloc))
}

// The entity that stands first, with this parent.
fn with_parent(
    alloc: Global,
    ids: &Ids,
    old: &EntityParts<'_>,
    parent: (Name, Text),
) -> Result<SchemaValue, AllocError>
    ensures { IfOk result (λ x. (m n : SchemaMeaning) → IsTold ids.now.rows m n → schema_value x ≡ an_entity (record
        (with_id m n (entity_meaning old.now) (first_id (entity_meaning old.now).choices))
        { parents = parent_value parent ∷ [] })) }
{
    let id = first_id(alloc, old.choices)?;
    let attrs = some_entries(alloc, ids, old.attributes)?;
    let parents = one_parent(alloc, parent)?;
    entity_value(alloc, old.name, id, attrs, List::new(alloc), parents)
}

// An entity of the old type that the new type of its name does not admit.
fn lost_between(
    alloc: Global,
    ids: &Ids,
    old: &EntityParts<'_>,
    new: &EntityParts<'_>,
) -> Result<Option<SchemaValue>, AllocError>
    requires old_sorted { AreSorted old.now.attributes.now }
    requires new_sorted { AreSorted new.now.attributes.now }
    ensures { IfOk result (λ found. (m n : SchemaMeaning) → IsTold ids.now.rows m n → option_map schema_value found
        ≡ option_map an_entity (lost_entity_between m n (entity_meaning old.now) (entity_meaning new.now))) }
{
    if let Some(id) = first_refused(alloc, old.choices, new.choices)? {
        return Ok(Some(with_id(alloc, ids, old, id)?));
    }
    if let Some(attrs) = lost_record(alloc, ids, old.attributes, new.attributes)? {
        return Ok(Some(with_attributes(alloc, old, attrs)?));
    }
    if let Some(tags) = lost_tags(alloc, ids, old.tags, new.tags)? {
        return Ok(Some(with_tags(alloc, ids, old, tags)?));
    }
    if let Some(parent) = lost_parent(alloc, ids, old.ancestors, new.ancestors)? {
        return Ok(Some(with_parent(alloc, ids, old, parent)?));
    }
    match lost_choices(alloc, old.choices, new.choices)? {
        Some(id) => Ok(Some(with_id(alloc, ids, old, id)?)),
        None => Ok(None),
    }
}

// The entity that stands first.
fn first_entity(
    alloc: Global,
    ids: &Ids,
    old: &EntityParts<'_>,
) -> Result<Option<SchemaValue>, AllocError>
    ensures { IfOk result (λ found. (m n : SchemaMeaning) → IsTold ids.now.rows m n → option_map schema_value found
        ≡ Some (an_entity (with_id m n (entity_meaning old.now) (first_id (entity_meaning old.now).choices)))) }
{
    let id = first_id(alloc, old.choices)?;
    Ok(Some(with_id(alloc, ids, old, id)?))
}

// An entity of the old type that the new schema does not admit, whose type of that name may be another schema's.
fn lost_to_declared(
    alloc: Global,
    ids: &Ids,
    old: &EntityParts<'_>,
    new: &EntityParts<'_>,
) -> Result<Option<SchemaValue>, AllocError>
    requires old_sorted { AreSorted old.now.attributes.now }
    requires new_sorted { AreSorted new.now.attributes.now }
    ensures { IfOk result (λ found. (m n : SchemaMeaning) → IsTold ids.now.rows m n → option_map schema_value found
        ≡ option_map an_entity (lost_entity_to m n (entity_meaning old.now) (Some (entity_meaning new.now)))) }
{
    if new.is_external {
        first_entity(alloc, ids, old)
    } else {
        lost_between(alloc, ids, old, new)
    }
}

/// An entity of the old type that the new schema does not admit, by its type of that name.
pub fn lost_entity_to(
    alloc: Global,
    ids: &Ids,
    old: &EntityParts<'_>,
    new: Option<&EntityParts<'_>>,
) -> Result<Option<SchemaValue>, AllocError>
    requires old_sorted { AreSorted old.now.attributes.now }
    requires new_sorted { IfSome (option_copied new) (λ p. AreSorted p.attributes.now) }
    ensures { IfOk result (λ found. (m n : SchemaMeaning) → IsTold ids.now.rows m n → option_map schema_value found
        ≡ option_map an_entity (lost_entity_to m n (entity_meaning old.now)
        (option_map entity_meaning (option_copied new.entry)))) }
{
    match new {
        None => first_entity(alloc, ids, old),
        Some(new) => lost_to_declared(alloc, ids, old, new),
    }
}
