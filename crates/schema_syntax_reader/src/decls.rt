ghost use Rattle.schema_syntax_parser.specs.Syntax.{IsDecl};
ghost use Rattle.schema_syntax_parser.specs.declared.syntax.DeclSyntax.TheVariants as syntax;
ghost use Rattle.schema_syntax_reader.specs.Sites.{decl_sites};
ghost use Rattle.schema_syntax_reader.specs.Placed.{IsScanned};
ghost use Rattle.schema_syntax_reader.specs.Readings.{Reads};
ghost use Rattle.schema_syntax_reader.specs.Trees.{IsDeclOf};

use crate::actions::{applies, empty_list};
use crate::names::{Choices, Ids, Names, id_node};
use crate::parts::{all, optional, some};
use crate::paths::{Paths, References};
use crate::stopped::Stopped;
use crate::types::{shape, tags, ty};
use cedar_data::{Boxed, List, Loc, NonEmpty};
use schema_syntax_parser::{AppSyntax, AttrSyntax, DeclSyntax, PathSyntax, TypeSyntax};
use schema_syntax_tokens::ShortToken;
use schema_syntax_tree::{
    ActionDecl, Declaration, DefinedActionDecl, EntityDecl, EnumEntityDecl, ExternalActionDecl,
    ExternalEntityDecl, StandardEntityDecl, TypeDecl,
};
use std::alloc::Global;

// Entity types.
fn entity<'a>(
    alloc: Global,
    text: &'a str,
    names: NonEmpty<ShortToken>,
    parents: List<PathSyntax>,
    shape_raw: Option<(List<AttrSyntax>, Loc)>,
    tags_raw: Option<Boxed<TypeSyntax>>,
) -> Result<Declaration<'a>, Stopped>
    requires { IsScanned IsDecl text.now (syntax.Entity names parents shape_raw tags_raw) }
    ensures { let raw = syntax.Entity names parents shape_raw tags_raw in Reads text.now (decl_sites raw)
        (IsDeclOf text.now raw) result }
{
    let names = some::<Ids>(alloc, text, names)?;
    let parents = all::<Paths>(alloc, text, parents)?;
    let attrs = shape(alloc, text, shape_raw)?;
    let tags = tags(alloc, text, tags_raw)?;
    Ok(Declaration::Entity(EntityDecl::Standard(StandardEntityDecl {
        names,
        member_of_types: List::from_vec(parents),
        attrs,
        tags,
    })))
}

// Entity types of listed ids.
#[inline(never)]
fn listed<'a>(
    alloc: Global,
    text: &'a str,
    names: NonEmpty<ShortToken>,
    choices: List<ShortToken>,
    brackets: Loc,
) -> Result<Declaration<'a>, Stopped>
    requires { IsScanned IsDecl text.now (syntax.Enum names choices brackets) }
    ensures { let raw = syntax.Enum names choices brackets in Reads text.now (decl_sites raw)
        (IsDeclOf text.now raw) result }
{
    let names = some::<Ids>(alloc, text, names)?;
    let Some(choices) = NonEmpty::from_vec(choices.into_vec()) else {
        return Err(empty_list(alloc, brackets));
    };
    let choices = some::<Choices>(alloc, text, choices)?;
    Ok(Declaration::Entity(EntityDecl::Enum(EnumEntityDecl { names, choices })))
}

// Entity types of another schema.
#[inline(never)]
fn external_entity<'a>(
    alloc: Global,
    text: &'a str,
    names: NonEmpty<ShortToken>,
    parents: List<PathSyntax>,
) -> Result<Declaration<'a>, Stopped>
    requires { IsScanned IsDecl text.now (syntax.ExternalEntity names parents) }
    ensures { let raw = syntax.ExternalEntity names parents in Reads text.now (decl_sites raw)
        (IsDeclOf text.now raw) result }
{
    let names = some::<Ids>(alloc, text, names)?;
    let parents = all::<Paths>(alloc, text, parents)?;
    Ok(Declaration::Entity(EntityDecl::External(ExternalEntityDecl {
        names,
        member_of_types: List::from_vec(parents),
    })))
}

// Actions.
#[inline(never)]
fn action<'a>(
    alloc: Global,
    text: &'a str,
    names: NonEmpty<ShortToken>,
    parents: List<PathSyntax>,
    applies_raw: Option<(List<AppSyntax>, Loc)>,
) -> Result<Declaration<'a>, Stopped>
    requires { IsScanned IsDecl text.now (syntax.Action names parents applies_raw) }
    ensures { let raw = syntax.Action names parents applies_raw in Reads text.now (decl_sites raw)
        (IsDeclOf text.now raw) result }
{
    let names = some::<Names>(alloc, text, names)?;
    let parents = optional::<References>(alloc, text, parents)?;
    let app_decls = applies(alloc, text, applies_raw)?;
    let decl = DefinedActionDecl {
        names,
        parents,
        app_decls,
    };
    let decl = Boxed::new(alloc, ActionDecl::Defined(decl))?;
    Ok(Declaration::Action(decl))
}

// Actions of another schema.
#[inline(never)]
fn external_action<'a>(
    alloc: Global,
    text: &'a str,
    names: NonEmpty<ShortToken>,
    parents: List<PathSyntax>,
) -> Result<Declaration<'a>, Stopped>
    requires { IsScanned IsDecl text.now (syntax.ExternalAction names parents) }
    ensures { let raw = syntax.ExternalAction names parents in Reads text.now (decl_sites raw)
        (IsDeclOf text.now raw) result }
{
    let names = some::<Names>(alloc, text, names)?;
    let parents = optional::<References>(alloc, text, parents)?;
    let decl = ExternalActionDecl { names, parents };
    let decl = Boxed::new(alloc, ActionDecl::External(decl))?;
    Ok(Declaration::Action(decl))
}

// A common type.
#[inline(never)]
fn common<'a>(
    alloc: Global,
    text: &'a str,
    name: ShortToken,
    raw: TypeSyntax,
) -> Result<Declaration<'a>, Stopped>
    requires { IsScanned IsDecl text.now (syntax.Common name raw) }
    ensures { Reads text.now (decl_sites (syntax.Common name raw)) (IsDeclOf text.now (syntax.Common name raw)) result }
{
    let name = id_node(alloc, text, &name)?;
    let def = ty(alloc, text, raw)?;
    Ok(Declaration::Common(TypeDecl { name, def }))
}

// A declaration without its annotations. Each kind but the most frequent stands by itself, so that no other needs room
// for it.
pub fn decl<'a>(alloc: Global, text: &'a str, raw: DeclSyntax) -> Result<Declaration<'a>, Stopped>
    requires { IsScanned IsDecl text.now raw }
    ensures { Reads text.now (decl_sites raw) (IsDeclOf text.now raw) result }
{
    match raw {
        DeclSyntax::Entity {
            names,
            parents,
            shape,
            tags,
        } => entity(alloc, text, names, parents, shape, tags),
        DeclSyntax::Enum {
            names,
            choices,
            brackets,
        } => listed(alloc, text, names, choices, brackets),
        DeclSyntax::ExternalEntity { names, parents } => {
            external_entity(alloc, text, names, parents)
        }
        DeclSyntax::Action {
            names,
            parents,
            applies,
        } => action(alloc, text, names, parents, applies),
        DeclSyntax::ExternalAction { names, parents } => {
            external_action(alloc, text, names, parents)
        }
        DeclSyntax::Common { name, ty } => common(alloc, text, name, ty),
    }
}
