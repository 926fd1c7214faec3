ghost use Rattle.std.specs.Prelude.{◌≡◌, IfOk};
ghost use Rattle.schema_convert_fragments.specs.Declarations.{raw_names, nothing, entity_kind_of, entity_type_of};
ghost use Rattle.schema_convert_fragments.specs.Declarations.{choices_of, is_external, tags_of};

use cedar_data::{Boxed, List, Loc, Map, Node, NonEmpty};
use cedar_identifiers::{Annotations, Eid, RawName};
use schema_convert_types::items::{Item, all};
use schema_convert_types::names::Paths;
use schema_convert_types::types::{node_type, record_type};
use schema_json::{
    AttributesOrContext, EntityType, EntityTypeKind, RecordType, StandardEntityType, Type,
    TypeVariant,
};
use schema_syntax_tree::{
    EntityDecl, EnumEntityDecl, ExternalEntityDecl, Path, SrcStr, StandardEntityDecl,
};
use std::alloc::{AllocError, Global};

// The names of paths, in order. Mostly there are none, and no room is needed for these.
fn raw_names(alloc: Global, paths: &List<Path<'_>>) -> Result<List<RawName>, AllocError>
    ensures { IfOk result (λ names. names ≡ raw_names paths.now) }
{
    if paths.as_slice().is_empty() {
        return Ok(List::new(alloc));
    }
    Ok(List::from_vec(all::<Paths>(alloc, paths.as_slice())?))
}

/// The type of no attributes, which has no place.
pub fn nothing(alloc: Global) -> AttributesOrContext<RawName>
    ensures { result ≡ nothing }
{
    AttributesOrContext(Type::Variant {
        ty: TypeVariant::Record(RecordType {
            attributes: Map::new(alloc),
            additional_attributes: false,
        }),
        loc: None,
    })
}

// The type of the tags, where there are tags.
fn tags_of(
    alloc: Global,
    tags: &Option<Boxed<Node<schema_syntax_tree::Type<'_>>>>,
) -> Result<Option<Boxed<Type<RawName>>>, AllocError>
    ensures { IfOk result (λ out. out ≡ tags_of tags.now) }
{
    match tags {
        None => Ok(None),
        Some(ty) => {
            let ty = node_type(alloc, ty.get())?;
            Ok(Some(Boxed::new(alloc, ty)?))
        }
    }
}

// The ids of an enumeration.
struct Choices;

impl<'a> Item<'a> for Choices {
    type Tree = Node<SrcStr<'a>>;

    type Out = Eid;

    ghost translation = { λ choice. record { 0 = choice.node } };

    fn translate(alloc: Global, item: &Node<SrcStr<'a>>) -> Result<Eid, AllocError> {
        Ok(Eid(item.node.to_text(alloc)?))
    }
}

// The ids without their places.
fn choices_of(
    alloc: Global,
    choices: &NonEmpty<Node<SrcStr<'_>>>,
) -> Result<NonEmpty<Eid>, AllocError>
    ensures { IfOk result (λ out. out ≡ choices_of choices.now) }
{
    let (first, others) = choices.parts();
    let first = Choices::translate(alloc, first)?;
    let others = all::<Choices>(alloc, others)?;
    Ok(NonEmpty::from_parts(first, others))
}

// What entity types with attributes are.
fn standard(
    alloc: Global,
    decl: &StandardEntityDecl<'_>,
) -> Result<EntityTypeKind<RawName>, AllocError>
    ensures { IfOk result (λ out. out ≡ entity_kind_of (EntityDecl.Standard decl.now)) }
{
    let member_of_types = raw_names(alloc, &decl.member_of_types)?;
    let shape = AttributesOrContext(record_type(alloc, &decl.attrs)?);
    let tags = tags_of(alloc, &decl.tags)?;
    let standard = StandardEntityType {
        member_of_types,
        shape,
        tags,
    };
    Ok(EntityTypeKind::Standard(Boxed::new(alloc, standard)?))
}

// What an entity type is declared as whose entities are listed.
#[inline(never)]
fn listed(alloc: Global, decl: &EnumEntityDecl<'_>) -> Result<EntityTypeKind<RawName>, AllocError>
    ensures { IfOk result (λ out. out ≡ entity_kind_of (EntityDecl.Enum decl.now)) }
{
    let choices = choices_of(alloc, &decl.choices)?;
    let choices = Boxed::new(alloc, choices)?;
    Ok(EntityTypeKind::Enum { choices })
}

// What an entity type is declared as that another schema declares.
#[inline(never)]
fn external(
    alloc: Global,
    decl: &ExternalEntityDecl<'_>,
) -> Result<EntityTypeKind<RawName>, AllocError>
    ensures { IfOk result (λ out. out ≡ entity_kind_of (EntityDecl.External decl.now)) }
{
    let member_of_types = raw_names(alloc, &decl.member_of_types)?;
    let standard = StandardEntityType {
        member_of_types,
        shape: nothing(alloc),
        tags: None,
    };
    Ok(EntityTypeKind::Standard(Boxed::new(alloc, standard)?))
}

// What the entity types of the declaration are. Most are standard ones, and the others stand by themselves, so that
// these need no room for them.
fn kind(alloc: Global, decl: &EntityDecl<'_>) -> Result<EntityTypeKind<RawName>, AllocError>
    ensures { IfOk result (λ out. out ≡ entity_kind_of decl.now) }
{
    match decl {
        EntityDecl::Standard(decl) => standard(alloc, decl),
        EntityDecl::Enum(decl) => listed(alloc, decl),
        EntityDecl::External(decl) => external(alloc, decl),
    }
}

// Whether another schema declares them.
fn is_external(decl: &EntityDecl<'_>) -> bool
    ensures { result ≡ is_external decl.now }
{
    match decl {
        EntityDecl::External(_) => true,
        _ => false,
    }
}

/// What each entity type of the declaration is declared as, with these annotations and this place.
pub fn entity_type(
    alloc: Global,
    decl: &EntityDecl<'_>,
    annotations: Annotations,
    loc: Option<Loc>,
) -> Result<EntityType<RawName>, AllocError>
    ensures { IfOk result (λ out. out ≡ entity_type_of decl.now annotations loc) }
{
    let external = is_external(decl);
    let kind = kind(alloc, decl)?;
    Ok(EntityType {
        kind,
        external,
        annotations,
        loc,
    })
}
