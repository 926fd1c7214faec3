ghost use Rattle.std.specs.Prelude.{◌≡◌, IfOk, OnOk, ◌≤◌, take, drop, length};
ghost use Rattle.schema_inclusion_values.specs.Checks.{some_value, some_entries};
ghost use Rattle.schema_inclusion_values.specs.Seen.{value_of, entries_value};
ghost use Rattle.cedar_identifiers.specs.Names.{components_of};
ghost use Rattle.schema_inclusion_values.specs.Values.{Entries, Ref};
ghost use Rattle.schema_inclusion_types.specs.Entries.{entries_onto, some_onto, entries_at};
ghost use Rattle.schema_inclusion_types.specs.Ids.{id_in};
ghost use Rattle.schema_inclusion_types.specs.Kinds.{plain, plain_attrs};

use crate::ids::Ids;
use crate::names::first_name;
use cedar_data::{CloneIn, List, Text};
use cedar_identifiers::Name;
use schema_build_types::Type;
use schema_inclusion_values::Val;
use std::alloc::{AllocError, Global};

// The entity of this type with the id that is known of it.
pub(crate) fn some_entity(alloc: Global, ids: &Ids, name: &Name) -> Result<Val, AllocError>
    ensures { IfOk result (λ v. value_of v ≡ Ref (components_of name.now.name)
        (id_in ids.now.rows (components_of name.now.name))) }
{
    let id = ids.id_of(alloc, name)?;
    Ok(Val::Ref(name.clone_in(alloc)?, id))
}

/// A value of the type: false, 0, an empty text or set, the entity with the id that is known of its type, or the
/// record with its required attributes alone.
#[cycle(some)]
pub fn some_value(alloc: Global, ids: &Ids, ty: &Type) -> Result<Val, AllocError>
    ensures { IfOk result (λ v. value_of v ≡ some_value (id_in ids.now.rows) (plain ty.now)) }
{
    match ty {
        Type::Never | Type::AnyBool | Type::True | Type::False => Ok(Val::Bool(false)),
        Type::Long => Ok(Val::Long(0)),
        Type::String => Ok(Val::Str(Text::new(alloc))),
        Type::Set { .. } => Ok(Val::Set(List::new(alloc))),
        Type::Record { attrs, .. } => Ok(Val::Rec(some_entries(alloc, ids, attrs.as_slice())?)),
        Type::Entity { names } => some_entity(alloc, ids, first_name(names.get())),
        Type::AnyEntity => Ok(Val::Rec(List::new(alloc))),
        Type::Extension { name } => Ok(Val::Ext(name.clone_in(alloc)?)),
    }
}

// Adds a value of each required attribute.
#[cycle(some)]
fn push_some(
    entries: &mut List<(Text, Val)>,
    alloc: Global,
    ids: &Ids,
    attrs: &[(Text, (Type, bool))],
) -> Result<(), AllocError>
    ensures { OnOk result ((rest : Entries) → entries_onto entries.new rest
        ≡ entries_onto entries.old (some_onto (id_in ids.now.rows) (plain_attrs attrs.now) rest)) }
{
    for (name, (ty, required)) in attrs {
        if *required {
            let name = name.clone_in(alloc)?;
            let value = some_value(alloc, ids, ty)?;
            entries.push((name, value))?;
        }
    }
    Ok(())
}

/// A value of each required attribute.
#[cycle(some)]
pub fn some_entries(
    alloc: Global,
    ids: &Ids,
    attrs: &[(Text, (Type, bool))],
) -> Result<List<(Text, Val)>, AllocError>
    ensures { IfOk result (λ es. entries_value es ≡ some_entries (id_in ids.now.rows) (plain_attrs attrs.now)) }
{
    let mut entries = List::new(alloc);
    push_some(&mut entries, alloc, ids, attrs)?;
    Ok(entries)
}

// The attribute at this place with this value, and a value of each other attribute that is required.
pub(crate) fn entries_with(
    alloc: Global,
    ids: &Ids,
    attrs: &[(Text, (Type, bool))],
    at: usize,
    value: Val,
) -> Result<List<(Text, Val)>, AllocError>
    requires { at ≤ length attrs.now }
    ensures { IfOk result (λ es. entries_value es ≡ entries_at (id_in ids.now.rows) (take at attrs.now)
        (drop at attrs.now) (value_of value)) }
{
    let mut entries = List::new(alloc);
    let (before, rest) = attrs.split_at(at);
    push_some(&mut entries, alloc, ids, before)?;
    match rest.split_first() {
        None => Ok(entries),
        Some(((name, _), behind)) => {
            entries.push((name.clone_in(alloc)?, value))?;
            push_some(&mut entries, alloc, ids, behind)?;
            Ok(entries)
        }
    }
}
