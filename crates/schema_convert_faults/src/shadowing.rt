ghost use Rattle.std.specs.Prelude.{◌≡◌, ◌++◌, true, false, map, IfOk, OnOk};
ghost use Rattle.std.specs.List.{filter, flat_map};
ghost use Rattle.std.specs.Option.{option_copied};
ghost use Rattle.cedar_names.specs.Tables.{table_has};
ghost use Rattle.schema_convert_faults.specs.Borrowed.{entry_now, optional_now};
ghost use Rattle.schema_convert_faults.specs.NamesIn.{entities_of, entity_names_in};
ghost use Rattle.schema_convert_faults.specs.Shadowings.{by_id, is_primitive_name, is_taken, builtin_shadowed};
ghost use Rattle.schema_convert_faults.specs.Shadowings.{entity_shadowed};
ghost use Rattle.schema_convert_faults.specs.Shadowings.{common_warnings, declared_warnings, by_name, warnings_of};

use crate::names_in::{common_names_in, entity_names_in};
use cedar_data::{Boxed, Map, Node, Text, same_bytes};
use cedar_names::ExtensionTable;
use schema_convert_errors::{SchemaWarning, ShadowsBuiltinWarning, ShadowsEntityWarning};
use schema_convert_fragments::map_of;
use schema_syntax_tree::{Annotated, Declaration, Namespace, Path, SrcId};
use std::alloc::{AllocError, Global};

// The names, sorted.
fn by_id<'a, 's>(
    alloc: Global,
    names: Vec<&'a Node<SrcId<'s>>>,
) -> Result<Map<&'a SrcId<'s>, &'a Node<SrcId<'s>>>, AllocError>
    ensures { IfOk result (λ sorted. map entry_now sorted ≡ by_id (map (λ x. x.now) names.entry.items)) }
{
    let mut entries = Vec::new(alloc);
    for name in names {
        entries.push((&name.node, name))?;
    }
    let sorted = map_of(alloc, entries)?;
    Ok(sorted)
}

// Whether the word is the name of a type that every schema has.
fn is_primitive_name(word: &str) -> bool
    ensures { result ≡ is_primitive_name word.now }
{
    match word.len() {
        4 => same_bytes(word, "Long") || same_bytes(word, "Bool"),
        6 => same_bytes(word, "String"),
        _ => false,
    }
}

// Whether the first byte of the word is less than that of each of the table's names, as a capital letter mostly is.
fn begins_below(table: &ExtensionTable, word: &str) -> bool
    ensures { result ≡ true → table_has table.now word.now ≡ false }
{
    let Some(least) = table.names.as_slice().first() else {
        return false;
    };
    match (word.as_bytes().first(), least.as_str().as_bytes().first()) {
        (Some(first), Some(other)) => *first < *other,
        _ => false,
    }
}

// Whether the word is one of the table's.
fn stands_in(table: &ExtensionTable, word: &str) -> bool
    ensures { result ≡ table_has table.now word.now }
{
    if begins_below(table, word) {
        return false;
    }
    table.has(word)
}

/// Whether it is that, or one of the table's.
pub fn is_taken(table: &ExtensionTable, word: &str) -> bool
    ensures { result ≡ is_taken table.now word.now }
{
    is_primitive_name(word) || stands_in(table, word)
}

// Adds the warning of a declared type that is named so.
fn push_builtin(
    alloc: Global,
    warnings: &mut Vec<SchemaWarning>,
    table: &ExtensionTable,
    name: &Node<SrcId<'_>>,
) -> Result<(), AllocError>
    ensures { OnOk result (warnings.new.items ≡ warnings.old.items ++ builtin_shadowed table.now name.now) }
{
    if !is_taken(table, name.node.as_str()) {
        return Ok(());
    }
    let warning = ShadowsBuiltinWarning {
        name: Text::from_str(alloc, name.node.as_str())?,
        loc: name.loc,
    };
    warnings.push(SchemaWarning::ShadowsBuiltin(warning))?;
    Ok(())
}

// Adds the warning of a common type that is named like this entity type.
fn push_entity(
    alloc: Global,
    warnings: &mut Vec<SchemaWarning>,
    entity: Option<&Node<SrcId<'_>>>,
    common: &Node<SrcId<'_>>,
) -> Result<(), AllocError>
    ensures { OnOk result (warnings.new.items ≡ warnings.old.items
        ++ entity_shadowed (option_copied entity.entry) common.now) }
{
    let Some(entity) = entity else {
        return Ok(());
    };
    let warning = ShadowsEntityWarning {
        name: Text::from_str(alloc, common.node.as_str())?,
        entity_loc: entity.loc,
        common_loc: common.loc,
    };
    warnings.push(SchemaWarning::ShadowsEntity(warning))?;
    Ok(())
}

// Adds the warnings of a common type.
fn push_common<'s>(
    alloc: Global,
    warnings: &mut Vec<SchemaWarning>,
    table: &ExtensionTable,
    entities: &Map<&SrcId<'s>, &Node<SrcId<'s>>>,
    common: &Node<SrcId<'s>>,
) -> Result<(), AllocError>
    ensures { OnOk result (warnings.new.items ≡ warnings.old.items ++ common_warnings table.now
        (map entry_now entities.now) common.now) }
{
    let key = &common.node;
    let entity = entities.get(&key).copied();
    push_entity(alloc, warnings, entity, common)?;
    push_builtin(alloc, warnings, table, common)?;
    Ok(())
}

// Adds the warnings of the common types.
fn push_commons<'s>(
    alloc: Global,
    warnings: &mut Vec<SchemaWarning>,
    table: &ExtensionTable,
    entities: &Map<&SrcId<'s>, &Node<SrcId<'s>>>,
    commons: Map<&SrcId<'s>, &Node<SrcId<'s>>>,
) -> Result<(), AllocError>
    ensures { OnOk result (warnings.new.items ≡ warnings.old.items
        ++ flat_map (λ c. common_warnings table.now (map entry_now entities.now) c.1) (map entry_now commons.entry)) }
{
    for (_, common) in commons.into_vec() {
        push_common(alloc, warnings, table, entities, common)?;
    }
    Ok(())
}

// Adds the warnings of the entity types.
fn push_entities<'s>(
    alloc: Global,
    warnings: &mut Vec<SchemaWarning>,
    table: &ExtensionTable,
    entities: Map<&SrcId<'s>, &Node<SrcId<'s>>>,
) -> Result<(), AllocError>
    ensures { OnOk result (warnings.new.items ≡ warnings.old.items ++ flat_map (λ e. builtin_shadowed table.now e.1)
        (map entry_now entities.entry)) }
{
    for (_, entity) in entities.into_vec() {
        push_builtin(alloc, warnings, table, entity)?;
    }
    Ok(())
}

// Adds those of the names of entity types that are taken, of the declaration's.
fn push_taken_of<'a, 's>(
    taken: &mut Vec<&'a Node<SrcId<'s>>>,
    table: &ExtensionTable,
    decl: &'a Declaration<'s>,
) -> Result<(), AllocError>
    ensures { OnOk result (map (λ x. x.now) taken.new.items ≡ map (λ x. x.now) taken.old.items
        ++ filter (λ n. is_taken table.now n.node.text) (entities_of decl.now)) }
{
    let Declaration::Entity(decl) = decl else {
        return Ok(());
    };
    for name in decl.names() {
        if is_taken(table, name.node.as_str()) {
            taken.push(name)?;
        }
    }
    Ok(())
}

// The names of entity types that are taken by a type that every schema has or by one of the table's.
fn taken_names<'a, 's>(
    alloc: Global,
    table: &ExtensionTable,
    decls: &'a [Annotated<'s, Node<Declaration<'s>>>],
) -> Result<Vec<&'a Node<SrcId<'s>>>, AllocError>
    ensures { IfOk result (λ taken. map (λ x. x.now) taken.items ≡ filter (λ n. is_taken table.now n.node.text)
        (entity_names_in decls.now)) }
{
    let mut taken = Vec::new(alloc);
    for decl in decls {
        push_taken_of(&mut taken, table, &decl.item.node)?;
    }
    Ok(taken)
}

// Adds the warnings of the entity types that the declarations declare. Those with names that are not taken need no
// order.
fn push_taken<'s>(
    alloc: Global,
    warnings: &mut Vec<SchemaWarning>,
    table: &ExtensionTable,
    decls: &[Annotated<'s, Node<Declaration<'s>>>],
) -> Result<(), AllocError>
    ensures { OnOk result (warnings.new.items ≡ warnings.old.items ++ flat_map (λ e. builtin_shadowed table.now e.1)
        (by_id (entity_names_in decls.now))) }
{
    let taken = taken_names(alloc, table, decls)?;
    let entities = by_id(alloc, taken)?;
    push_entities(alloc, warnings, table, entities)?;
    Ok(())
}

// Adds the warnings of a namespace.
fn push_declared<'s>(
    alloc: Global,
    warnings: &mut Vec<SchemaWarning>,
    table: &ExtensionTable,
    decls: &[Annotated<'s, Node<Declaration<'s>>>],
) -> Result<(), AllocError>
    ensures { OnOk result (warnings.new.items ≡ warnings.old.items ++ declared_warnings table.now decls.now) }
{
    let common_names = common_names_in(alloc, decls)?;
    if common_names.is_empty() {
        return push_taken(alloc, warnings, table, decls);
    }
    let commons = by_id(alloc, common_names)?;
    let entity_names = entity_names_in(alloc, decls)?;
    let entities = by_id(alloc, entity_names)?;
    push_commons(alloc, warnings, table, &entities, commons)?;
    push_entities(alloc, warnings, table, entities)?;
    Ok(())
}

// The namespaces, sorted by their names.
fn by_name<'a, 's>(
    alloc: Global,
    namespaces: &'a [Annotated<'s, Namespace<'s>>],
) -> Result<Map<Option<&'a Boxed<Path<'s>>>, &'a Annotated<'s, Namespace<'s>>>, AllocError>
    ensures { IfOk result (λ sorted. map optional_now sorted ≡ by_name namespaces.now) }
{
    let mut entries = Vec::new(alloc);
    for namespace in namespaces {
        entries.push((namespace.item.name.as_ref(), namespace))?;
    }
    let sorted = map_of(alloc, entries)?;
    Ok(sorted)
}

/// The warnings of these namespaces, in order.
pub fn warnings_of<'s>(
    alloc: Global,
    namespaces: &[Annotated<'s, Namespace<'s>>],
    table: &ExtensionTable,
) -> Result<Vec<SchemaWarning>, AllocError>
    ensures { IfOk result (λ warnings. warnings.items ≡ warnings_of table.now namespaces.now) }
{
    let sorted = by_name(alloc, namespaces)?;
    let mut warnings = Vec::new(alloc);
    for (_, namespace) in sorted.into_vec() {
        push_declared(alloc, &mut warnings, table, namespace.item.decls.as_slice())?;
    }
    Ok(warnings)
}
