ghost use Rattle.std.specs.Prelude.{◌≡◌, option_map, map, IfOk, OnOk};
ghost use Rattle.schema_convert_types.specs.Names.{raw_name_of};
ghost use Rattle.schema_syntax_tree.specs.DeclaredNames.{action_names};
ghost use Rattle.schema_convert_fragments.specs.Declarations.{reference_of, references_of, member_types, context_of};
ghost use Rattle.schema_convert_fragments.specs.Declarations.{with_types};
ghost use Rattle.schema_convert_fragments.specs.Declarations.{with_member, apply_spec_of, action_type_of};

use crate::entities::nothing;
use cedar_data::{List, Loc, Node, NonEmpty, Text};
use cedar_identifiers::{Annotations, RawName};
use schema_convert_types::items::{Item, some};
use schema_convert_types::names::{Paths, raw_name};
use schema_convert_types::types::record_type;
use schema_json::{ActionEntityUID, ActionType, ApplySpec, AttributesOrContext, Type};
use schema_syntax_tree::{
    ActionDecl, Annotated, AppDecl, AttrDecl, DefinedActionDecl, Either, ExternalActionDecl, PR,
    PRAppDecl, Path, QualName, SrcStr,
};
use std::alloc::{AllocError, Global};

// The name of a type, where one was written.
fn type_name(alloc: Global, path: &Option<Path<'_>>) -> Result<Option<RawName>, AllocError>
    ensures { IfOk result (λ name. name ≡ option_map raw_name_of path.now) }
{
    match path {
        None => Ok(None),
        Some(path) => Ok(Some(raw_name(alloc, path)?)),
    }
}

// The parents of an action: of each its id, and its type where one was written.
struct Parents;

impl<'a> Item<'a> for Parents {
    type Tree = Node<QualName<'a>>;

    type Out = ActionEntityUID<RawName>;

    ghost translation = { reference_of };

    fn translate(
        alloc: Global,
        item: &Node<QualName<'a>>,
    ) -> Result<ActionEntityUID<RawName>, AllocError> {
        let QualName { path, eid } = &item.node;
        let id = eid.to_text(alloc)?;
        let ty = type_name(alloc, path)?;
        Ok(ActionEntityUID { id, ty })
    }
}

// The parents, where some were written.
fn references(
    alloc: Global,
    parents: &Option<NonEmpty<Node<QualName<'_>>>>,
) -> Result<Option<List<ActionEntityUID<RawName>>>, AllocError>
    ensures { IfOk result (λ out. out ≡ references_of parents.now) }
{
    match parents {
        None => Ok(None),
        Some(parents) => Ok(Some(List::from_vec(some::<Parents>(alloc, parents)?))),
    }
}

// The types of a member, and none for `[]`.
fn member_types(
    alloc: Global,
    types: &Option<NonEmpty<Path<'_>>>,
) -> Result<List<RawName>, AllocError>
    ensures { IfOk result (λ out. out ≡ member_types types.now) }
{
    match types {
        None => Ok(List::new(alloc)),
        Some(paths) => Ok(List::from_vec(some::<Paths>(alloc, paths)?)),
    }
}

// A context: a reference that must mean a common type, or a record.
fn context<'a>(
    alloc: Global,
    context: &Either<Path<'a>, Node<List<Node<Annotated<'a, AttrDecl<'a>>>>>>,
) -> Result<AttributesOrContext<RawName>, AllocError>
    ensures { IfOk result (λ out. out ≡ context_of context.now) }
{
    match context {
        Either::Left(path) => {
            let loc = path.loc().copied();
            Ok(AttributesOrContext(Type::CommonTypeRef {
                type_name: raw_name(alloc, path)?,
                loc,
            }))
        }
        Either::Right(attributes) => Ok(AttributesOrContext(record_type(alloc, attributes)?)),
    }
}

// Puts these principals or resources to what an action is applied to.
fn set_types(kind: PR, types: List<RawName>, spec: &mut ApplySpec<RawName>)
    ensures { spec.new ≡ with_types kind types spec.old }
{
    match kind {
        PR::Principal => spec.principal_types = types,
        PR::Resource => spec.resource_types = types,
    }
}

// Puts this member to what an action is applied to.
fn set_member(
    alloc: Global,
    member: &AppDecl<'_>,
    spec: &mut ApplySpec<RawName>,
) -> Result<(), AllocError>
    ensures { OnOk result (spec.new ≡ with_member member.now spec.old) }
{
    match member {
        AppDecl::PR(PRAppDecl { kind, entity_tys }) => {
            let types = member_types(alloc, entity_tys)?;
            set_types(kind.node, types, spec);
        }
        AppDecl::Context(written) => spec.context = context(alloc, written)?,
    }
    Ok(())
}

// What an action is applied to: nothing, in the empty context, where nothing was written.
fn apply_spec(
    alloc: Global,
    block: &Option<Node<NonEmpty<Node<AppDecl<'_>>>>>,
) -> Result<ApplySpec<RawName>, AllocError>
    ensures { IfOk result (λ out. out ≡ apply_spec_of block.now) }
{
    let mut spec = ApplySpec {
        resource_types: List::new(alloc),
        principal_types: List::new(alloc),
        context: nothing(alloc),
    };
    let Some(block) = block else {
        return Ok(spec);
    };
    for member in block.node.iter() {
        set_member(alloc, &member.node, &mut spec)?;
    }
    Ok(spec)
}

// What an action is declared as.
fn defined(
    alloc: Global,
    decl: &DefinedActionDecl<'_>,
    annotations: Annotations,
    loc: Option<Loc>,
) -> Result<ActionType<RawName>, AllocError>
    ensures { IfOk result (λ out. out ≡ action_type_of (ActionDecl.Defined decl.now) annotations loc) }
{
    let member_of = references(alloc, &decl.parents)?;
    let applies_to = apply_spec(alloc, &decl.app_decls)?;
    Ok(ActionType {
        attributes: None,
        applies_to: Some(applies_to),
        member_of,
        external: false,
        annotations,
        loc,
    })
}

// What an action is declared as that another schema declares.
fn external(
    alloc: Global,
    decl: &ExternalActionDecl<'_>,
    annotations: Annotations,
    loc: Option<Loc>,
) -> Result<ActionType<RawName>, AllocError>
    ensures { IfOk result (λ out. out ≡ action_type_of (ActionDecl.External decl.now) annotations loc) }
{
    let member_of = references(alloc, &decl.parents)?;
    Ok(ActionType {
        attributes: None,
        applies_to: None,
        member_of,
        external: true,
        annotations,
        loc,
    })
}

/// What each action of the declaration is declared as, with these annotations and this place.
pub fn action_type(
    alloc: Global,
    decl: &ActionDecl<'_>,
    annotations: Annotations,
    loc: Option<Loc>,
) -> Result<ActionType<RawName>, AllocError>
    ensures { IfOk result (λ out. out ≡ action_type_of decl.now annotations loc) }
{
    match decl {
        ActionDecl::Defined(decl) => defined(alloc, decl, annotations, loc),
        ActionDecl::External(decl) => external(alloc, decl, annotations, loc),
    }
}

// The names of a declaration.
struct Names;

impl<'a> Item<'a> for Names {
    type Tree = Node<SrcStr<'a>>;

    type Out = Text;

    ghost translation = { λ name. name.node };

    fn translate(alloc: Global, item: &Node<SrcStr<'a>>) -> Result<Text, AllocError> {
        item.node.to_text(alloc)
    }
}

/// The ids of the actions that the declaration declares, in order.
pub fn action_ids(alloc: Global, decl: &ActionDecl<'_>) -> Result<Vec<Text>, AllocError>
    ensures { IfOk result (λ ids. ids.items ≡ map (λ n. n.node) (action_names decl.now)) }
{
    match decl {
        ActionDecl::Defined(decl) => some::<Names>(alloc, &decl.names),
        ActionDecl::External(decl) => some::<Names>(alloc, &decl.names),
    }
}
