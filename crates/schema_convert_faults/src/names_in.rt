ghost use Rattle.std.specs.Prelude.{◌≡◌, ◌++◌, map, IfOk, OnOk};
ghost use Rattle.cedar_data.specs.NonEmpty.{items_left};
ghost use Rattle.schema_convert_faults.specs.NamesIn.{entities_of, actions_of, commons_of, entity_names_in};
ghost use Rattle.schema_convert_faults.specs.NamesIn.{action_names_in, common_names_in};

use cedar_data::{Node, NonEmptyIter};
use schema_syntax_tree::{ActionDecl, Annotated, Declaration, SrcId, SrcStr};
use std::alloc::{AllocError, Global};

// Adds the items, in order.
fn push_all<'a, T>(items: &mut Vec<&'a T>, more: NonEmptyIter<'a, T>) -> Result<(), AllocError>
    ensures { OnOk result (map (λ x. x.now) items.new.items ≡ map (λ x. x.now) items.old.items
        ++ items_left more.entry) }
{
    for item in more {
        items.push(item)?;
    }
    Ok(())
}

// Adds the names of the entity types that the declaration declares.
fn push_entities<'a, 's>(
    names: &mut Vec<&'a Node<SrcId<'s>>>,
    decl: &'a Declaration<'s>,
) -> Result<(), AllocError>
    ensures { OnOk result (map (λ x. x.now) names.new.items ≡ map (λ x. x.now) names.old.items
        ++ entities_of decl.now) }
{
    match decl {
        Declaration::Entity(decl) => push_all(names, decl.names()),
        _ => Ok(()),
    }
}

// Adds the names of the actions.
fn push_actions<'a, 's>(
    names: &mut Vec<&'a Node<SrcStr<'s>>>,
    decl: &'a Declaration<'s>,
) -> Result<(), AllocError>
    ensures { OnOk result (map (λ x. x.now) names.new.items ≡ map (λ x. x.now) names.old.items ++ actions_of decl.now) }
{
    match decl {
        Declaration::Action(decl) => match decl.get() {
            ActionDecl::Defined(decl) => push_all(names, decl.names.iter()),
            ActionDecl::External(decl) => push_all(names, decl.names.iter()),
        },
        _ => Ok(()),
    }
}

// Adds the name of the common type.
fn push_common<'a, 's>(
    names: &mut Vec<&'a Node<SrcId<'s>>>,
    decl: &'a Declaration<'s>,
) -> Result<(), AllocError>
    ensures { OnOk result (map (λ x. x.now) names.new.items ≡ map (λ x. x.now) names.old.items ++ commons_of decl.now) }
{
    if let Declaration::Common(decl) = decl {
        names.push(&decl.name)?;
    }
    Ok(())
}

/// The names of the entity types that the declarations declare, in order.
pub fn entity_names_in<'a, 's>(
    alloc: Global,
    decls: &'a [Annotated<'s, Node<Declaration<'s>>>],
) -> Result<Vec<&'a Node<SrcId<'s>>>, AllocError>
    ensures { IfOk result (λ names. map (λ x. x.now) names.items ≡ entity_names_in decls.now) }
{
    let mut names = Vec::new(alloc);
    for decl in decls {
        push_entities(&mut names, &decl.item.node)?;
    }
    Ok(names)
}

/// The names of the actions.
pub fn action_names_in<'a, 's>(
    alloc: Global,
    decls: &'a [Annotated<'s, Node<Declaration<'s>>>],
) -> Result<Vec<&'a Node<SrcStr<'s>>>, AllocError>
    ensures { IfOk result (λ names. map (λ x. x.now) names.items ≡ action_names_in decls.now) }
{
    let mut names = Vec::new(alloc);
    for decl in decls {
        push_actions(&mut names, &decl.item.node)?;
    }
    Ok(names)
}

/// The names of the common types.
pub fn common_names_in<'a, 's>(
    alloc: Global,
    decls: &'a [Annotated<'s, Node<Declaration<'s>>>],
) -> Result<Vec<&'a Node<SrcId<'s>>>, AllocError>
    ensures { IfOk result (λ names. map (λ x. x.now) names.items ≡ common_names_in decls.now) }
{
    let mut names = Vec::new(alloc);
    for decl in decls {
        push_common(&mut names, &decl.item.node)?;
    }
    Ok(names)
}
