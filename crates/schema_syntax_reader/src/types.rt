ghost use Rattle.std.specs.Prelude.{◌≡◌};
ghost use Rattle.std.specs.List.{All};
ghost use Rattle.schema_syntax_parser.specs.Syntax.{IsType, IsAttr, IsShape, AreTags};
ghost use Rattle.schema_syntax_reader.specs.Sites.{sites_of_type, sites_of_attr, sites_of_attrs, shape_sites};
ghost use Rattle.schema_syntax_reader.specs.Sites.{tags_sites};
ghost use Rattle.schema_syntax_reader.specs.Placed.{IsScanned};
ghost use Rattle.schema_syntax_reader.specs.Readings.{Reads, IsAttrOf};
ghost use Rattle.schema_syntax_reader.specs.Trees.{IsTypeOf, AreAttrsOf, IsShapeOf, AreTagsOf};

use crate::names::{name_node, notes};
use crate::paths::path;
use crate::stopped::Stopped;
use cedar_data::{Boxed, List, Loc, Node};
use schema_syntax_parser::{AttrSyntax, TypeSyntax};
use schema_syntax_tree::{Annotated, AttrDecl, Type};
use std::alloc::Global;
use std::collections::VecDeque;

// How many items it takes that the room of others is let go.
const MANY: usize = 1024;

// A type.
#[cycle(types)]
pub fn ty<'a>(alloc: Global, text: &'a str, raw: TypeSyntax) -> Result<Node<Type<'a>>, Stopped>
    requires { IsScanned IsType text.now raw }
    ensures { Reads text.now (sites_of_type raw) (IsTypeOf text.now raw) result }
{
    match raw {
        TypeSyntax::Path(raw) => {
            let loc = raw.loc;
            let name = path(alloc, text, raw)?;
            Ok(Node {
                node: Type::Ident(name),
                loc: Some(loc),
            })
        }
        TypeSyntax::Set(element, loc) => {
            let element = ty(alloc, text, element.into_inner())?;
            let element = Boxed::new(alloc, element)?;
            Ok(Node {
                node: Type::Set(element),
                loc: Some(loc),
            })
        }
        TypeSyntax::Record(raws, loc) => {
            let attrs = attrs(alloc, text, raws)?;
            Ok(Node {
                node: Type::Record(List::from_vec(attrs)),
                loc: Some(loc),
            })
        }
    }
}

// An attribute.
#[cycle(types)]
fn attr<'a>(
    alloc: Global,
    text: &'a str,
    raw: AttrSyntax,
) -> Result<Node<Annotated<'a, AttrDecl<'a>>>, Stopped>
    requires { IsScanned IsAttr text.now raw }
    ensures { Reads text.now (sites_of_attr raw) (IsAttrOf text.now raw) result }
{
    let AttrSyntax {
        annotations,
        name,
        required,
        ty: raw_type,
        loc,
    } = raw;
    let annotations = notes(alloc, text, annotations.as_slice())?;
    let name = name_node(alloc, text, &name)?;
    let ty = ty(alloc, text, raw_type)?;
    let item = AttrDecl { name, required, ty };
    Ok(Node {
        node: Annotated { item, annotations },
        loc: Some(loc),
    })
}

// Attributes, in order.
#[cycle(types)]
pub fn attrs<'a>(
    alloc: Global,
    text: &'a str,
    raws: List<AttrSyntax>,
) -> Result<Vec<Node<Annotated<'a, AttrDecl<'a>>>>, Stopped>
    requires { All (IsScanned IsAttr text.now) raws }
    ensures { Reads text.now (sites_of_attrs raws) (λ attrs. AreAttrsOf text.now raws attrs.items) result }
{
    let mut left = VecDeque::from_vec(raws.into_vec());
    let mut items = Vec::with_capacity(alloc, left.len())?;
    while let Some(raw) = left.pop_front() {
        let item = attr(alloc, text, raw)?;
        items.push(item)?;
        let_room_go(&mut left);
    }
    Ok(items)
}

// Lets the room go that was left, where it is most of the room of many items.
fn let_room_go<T>(left: &mut VecDeque<T>)
    ensures { left.new.items ≡ left.old.items }
{
    if left.len() >= MANY && left.len() <= left.capacity() / 2 {
        left.shrink_to_fit();
    }
}

// The attributes of an entity type: none, and no place, where no record stands.
pub fn shape<'a>(
    alloc: Global,
    text: &'a str,
    raw: Option<(List<AttrSyntax>, Loc)>,
) -> Result<Node<List<Node<Annotated<'a, AttrDecl<'a>>>>>, Stopped>
    requires { IsScanned IsShape text.now raw }
    ensures { Reads text.now (shape_sites raw) (IsShapeOf text.now raw) result }
{
    match raw {
        None => Ok(Node {
            node: List::new(alloc),
            loc: None,
        }),
        Some((raws, loc)) => {
            let attrs = attrs(alloc, text, raws)?;
            Ok(Node {
                node: List::from_vec(attrs),
                loc: Some(loc),
            })
        }
    }
}

// The type of the tags, where they are.
pub fn tags<'a>(
    alloc: Global,
    text: &'a str,
    raw: Option<Boxed<TypeSyntax>>,
) -> Result<Option<Boxed<Node<Type<'a>>>>, Stopped>
    requires { IsScanned AreTags text.now raw }
    ensures { Reads text.now (tags_sites raw) (AreTagsOf text.now raw) result }
{
    match raw {
        None => Ok(None),
        Some(raw) => {
            let ty = ty(alloc, text, raw.into_inner())?;
            Ok(Some(Boxed::new(alloc, ty)?))
        }
    }
}
