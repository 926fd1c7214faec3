ghost use Rattle.std.specs.Prelude.{◌≡◌, ◌||◌, [], ◌∷◌, ◌++◌, map, codes, IfOk, OnOk};
ghost use Rattle.std.specs.List.{flat_map};
ghost use Rattle.cedar_identifiers.specs.Names.{components_of};
ghost use Rattle.cedar_names.specs.Definitions.{among};
ghost use Rattle.schema_resolve_definitions.specs.Defined.{names_of_builtin, names_of_builtins, builtins, defined};
ghost use Rattle.schema_resolve_definitions.specs.Tests.{tests_of};

use crate::declared::{alone, single_fragment};
use cedar_data::{CloneIn, List, Text};
use cedar_identifiers::{Id, InternalName, RawName, UnreservedId};
use cedar_names::{AllDefs, ExtensionTable};
use schema_json::Fragment;
use std::alloc::{AllocError, Global};

/// All that is defined where the fragment stands alone: what it declares, the entity type `Action` of each namespace
/// with an action, and the builtin common types. Those are `Bool`, `Long`, `String` and the names of the table, each
/// behind `__cedar::`, and each by itself unless the empty namespace declares the name.
pub fn all_definitions(
    alloc: Global,
    fragment: &Fragment<RawName>,
    table: &ExtensionTable,
) -> Result<AllDefs, AllocError>
    ensures { IfOk result (λ defs. tests_of defs ≡ tests_of (defined fragment.now table.now)) }
{
    let mut defs = single_fragment(alloc, fragment)?;
    let names = builtin_names(alloc, &defs, table)?;
    defs.mark_all_as_common_types(names)?;
    defs.add_action_entity_types()?;
    Ok(defs)
}

// The names of the builtin types, where this is declared.
fn builtin_names(
    alloc: Global,
    defs: &AllDefs,
    table: &ExtensionTable,
) -> Result<Vec<InternalName>, AllocError>
    ensures { IfOk result (λ names. map components_of names.items ≡ names_of_builtins (tests_of defs.now)
        (builtins table.now)) }
{
    let mut names = Vec::new(alloc);
    push_primitives(alloc, defs, &mut names)?;
    push_extensions(alloc, defs, &mut names, table.names.as_slice())?;
    Ok(names)
}

// Adds the names of the primitive types.
fn push_primitives(
    alloc: Global,
    defs: &AllDefs,
    names: &mut Vec<InternalName>,
) -> Result<(), AllocError>
    ensures { OnOk result (map components_of names.new.items ≡ map components_of names.old.items
        ++ names_of_builtins (tests_of defs.now) (codes "Bool" ∷ codes "Long" ∷ codes "String" ∷ [])) }
{
    let bool = Text::from_str(alloc, "Bool")?;
    push_builtin(alloc, defs, names, Id { text: bool })?;
    let long = Text::from_str(alloc, "Long")?;
    push_builtin(alloc, defs, names, Id { text: long })?;
    let string = Text::from_str(alloc, "String")?;
    push_builtin(alloc, defs, names, Id { text: string })?;
    Ok(())
}

// Adds the names of the extension types.
fn push_extensions(
    alloc: Global,
    defs: &AllDefs,
    names: &mut Vec<InternalName>,
    extensions: &[UnreservedId],
) -> Result<(), AllocError>
    ensures { OnOk result (map components_of names.new.items ≡ map components_of names.old.items
        ++ flat_map (λ n. names_of_builtin (tests_of defs.now) n.id.text) extensions.now) }
{
    for extension in extensions {
        let id = extension.id.clone_in(alloc)?;
        push_builtin(alloc, defs, names, id)?;
    }
    Ok(())
}

// Adds the names of a builtin type: behind `__cedar::` and, where that is not declared, by itself.
fn push_builtin(
    alloc: Global,
    defs: &AllDefs,
    names: &mut Vec<InternalName>,
    id: Id,
) -> Result<(), AllocError>
    ensures { OnOk result (map components_of names.new.items ≡ map components_of names.old.items
        ++ names_of_builtin (tests_of defs.now) id.text) }
{
    let full = under_cedar(alloc, &id)?;
    let plain = alone(alloc, id);
    names.push(full)?;
    if !is_hidden(defs, &plain) {
        names.push(plain)?;
    }
    Ok(())
}

// Whether a common type or an entity type of this name is declared.
fn is_hidden(defs: &AllDefs, name: &InternalName) -> bool
    ensures { result ≡ (among defs.now.commons (components_of name.now) || among defs.now.entities
        (components_of name.now)) }
{
    defs.is_defined_as_common(name) || defs.is_defined_as_entity(name)
}

// The word behind `__cedar`.
fn under_cedar(alloc: Global, id: &Id) -> Result<InternalName, AllocError>
    ensures { IfOk result (λ name. components_of name ≡ codes "__cedar" ∷ id.now.text ∷ []) }
{
    let mut others = List::new(alloc);
    others.push(id.clone_in(alloc)?)?;
    let text = Text::from_str(alloc, "__cedar")?;
    Ok(InternalName {
        first: Id { text },
        others,
        loc: None,
    })
}
