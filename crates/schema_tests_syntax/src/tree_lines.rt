// A tree, found in a line piece by piece.

use cedar_data::{List, Loc, Node, NonEmpty};
use schema_syntax_tree::{
    ActionDecl, Annotated, AppDecl, AttrDecl, Declaration, DefinedActionDecl, Either, EntityDecl,
    Namespace, PRAppDecl, Path, QualName, Schema, SrcAnnotations, SrcId, SrcStr,
    StandardEntityDecl, Type, TypeDecl,
};
use schema_tests_lines::Wanted;
use std::alloc::Global;

// The ids with a dot before each, and the place.
fn find_path(wanted: &mut Wanted<'_>, path: &Path<'_>) {
    wanted.piece(" ");
    for id in path.iter() {
        wanted.piece(".");
        wanted.piece(id.as_str());
    }
    wanted.place(path.loc().copied());
}

fn find_paths(wanted: &mut Wanted<'_>, paths: &[Path<'_>]) {
    for path in paths {
        find_path(wanted, path);
    }
}

fn find_named(wanted: &mut Wanted<'_>, name: &str, place: Option<Loc>) {
    wanted.piece(" ");
    wanted.piece(name);
    wanted.place(place);
}

fn find_ids(wanted: &mut Wanted<'_>, names: &NonEmpty<Node<SrcId<'_>>>) {
    for name in names.iter() {
        find_named(wanted, name.node.as_str(), name.loc);
    }
}

// What the string stands for.
fn find_text(alloc: Global, wanted: &mut Wanted<'_>, text: &SrcStr<'_>) {
    match text.to_text(alloc) {
        Ok(text) => wanted.piece(text.as_str()),
        Err(_) => wanted.piece("memory"),
    }
}

fn find_string(alloc: Global, wanted: &mut Wanted<'_>, name: &SrcStr<'_>, place: Option<Loc>) {
    wanted.piece(" ");
    find_text(alloc, wanted, name);
    wanted.place(place);
}

fn find_names(alloc: Global, wanted: &mut Wanted<'_>, names: &NonEmpty<Node<SrcStr<'_>>>) {
    for name in names.iter() {
        find_string(alloc, wanted, &name.node, name.loc);
    }
}

fn find_choices(alloc: Global, wanted: &mut Wanted<'_>, choices: &NonEmpty<Node<SrcStr<'_>>>) {
    wanted.piece(" enum");
    find_names(alloc, wanted, choices);
}

fn find_annotations(alloc: Global, wanted: &mut Wanted<'_>, annotations: &SrcAnnotations<'_>) {
    let Ok(annotations) = annotations.to_annotations(alloc) else {
        wanted.piece("memory");
        return;
    };
    for (key, value) in annotations.0.as_slice() {
        wanted.piece(" #");
        wanted.piece(key.as_str());
        if let Some(value) = value {
            wanted.piece("=");
            wanted.piece(value.as_str());
        }
    }
}

#[cycle(tree)]
fn find_type(alloc: Global, wanted: &mut Wanted<'_>, found: &Type<'_>) {
    match found {
        Type::Set(element) => {
            let element = element.get();
            wanted.piece(" Set<");
            find_type(alloc, wanted, &element.node);
            wanted.place(element.loc);
            wanted.piece(">");
        }
        Type::Ident(path) => find_path(wanted, path),
        Type::Record(attributes) => find_attributes(alloc, wanted, attributes.as_slice()),
    }
}

#[cycle(tree)]
fn find_attributes(
    alloc: Global,
    wanted: &mut Wanted<'_>,
    attributes: &[Node<Annotated<'_, AttrDecl<'_>>>],
) {
    wanted.piece(" {");
    for attribute in attributes {
        find_annotations(alloc, wanted, &attribute.node.annotations);
        find_attribute(alloc, wanted, &attribute.node.item);
        wanted.place(attribute.loc);
        wanted.piece(",");
    }
    wanted.piece("}");
}

#[cycle(tree)]
fn find_attribute(alloc: Global, wanted: &mut Wanted<'_>, attribute: &AttrDecl<'_>) {
    find_string(alloc, wanted, &attribute.name.node, attribute.name.loc);
    wanted.piece(if attribute.required { ":" } else { "?:" });
    find_type(alloc, wanted, &attribute.ty.node);
    wanted.place(attribute.ty.loc);
}

fn find_record(
    alloc: Global,
    wanted: &mut Wanted<'_>,
    record: &Node<List<Node<Annotated<'_, AttrDecl<'_>>>>>,
) {
    find_attributes(alloc, wanted, record.node.as_slice());
    wanted.place(record.loc);
}

fn find_standard(alloc: Global, wanted: &mut Wanted<'_>, entity: &StandardEntityDecl<'_>) {
    wanted.piece(" entity");
    find_ids(wanted, &entity.names);
    wanted.piece(" in");
    find_paths(wanted, entity.member_of_types.as_slice());
    find_record(alloc, wanted, &entity.attrs);
    if let Some(tags) = &entity.tags {
        let tags = tags.get();
        wanted.piece(" tags");
        find_type(alloc, wanted, &tags.node);
        wanted.place(tags.loc);
    }
}

fn find_entity(alloc: Global, wanted: &mut Wanted<'_>, entity: &EntityDecl<'_>) {
    match entity {
        EntityDecl::Standard(standard) => find_standard(alloc, wanted, standard),
        EntityDecl::Enum(listed) => {
            wanted.piece(" entity");
            find_ids(wanted, &listed.names);
            find_choices(alloc, wanted, &listed.choices)
        }
        EntityDecl::External(external) => {
            wanted.piece(" external entity");
            find_ids(wanted, &external.names);
            wanted.piece(" in");
            find_paths(wanted, external.member_of_types.as_slice())
        }
    }
}

// The parents of an action, where some were written.
fn find_parents(
    alloc: Global,
    wanted: &mut Wanted<'_>,
    parents: &Option<NonEmpty<Node<QualName<'_>>>>,
) {
    let Some(parents) = parents else {
        return;
    };
    wanted.piece(" in");
    for parent in parents.iter() {
        if let Some(path) = &parent.node.path {
            find_path(wanted, path);
            wanted.piece("::");
        }
        find_string(alloc, wanted, &parent.node.eid, parent.loc);
    }
}

fn find_types(wanted: &mut Wanted<'_>, types: &PRAppDecl<'_>) {
    find_named(wanted, types.kind.node.as_str(), types.kind.loc);
    if let Some(paths) = &types.entity_tys {
        wanted.piece(" of");
        for path in paths.iter() {
            find_path(wanted, path);
        }
    }
}

fn find_clause(alloc: Global, wanted: &mut Wanted<'_>, clause: &AppDecl<'_>) {
    match clause {
        AppDecl::PR(types) => find_types(wanted, types),
        AppDecl::Context(Either::Left(path)) => {
            wanted.piece(" context");
            find_path(wanted, path)
        }
        AppDecl::Context(Either::Right(record)) => {
            wanted.piece(" context");
            find_record(alloc, wanted, record)
        }
    }
}

fn find_defined(alloc: Global, wanted: &mut Wanted<'_>, action: &DefinedActionDecl<'_>) {
    wanted.piece(" action");
    find_names(alloc, wanted, &action.names);
    find_parents(alloc, wanted, &action.parents);
    if let Some(clauses) = &action.app_decls {
        wanted.piece(" to {");
        for clause in clauses.node.iter() {
            find_clause(alloc, wanted, &clause.node);
            wanted.place(clause.loc);
            wanted.piece(",");
        }
        wanted.piece("}");
        wanted.place(clauses.loc);
    }
}

fn find_action(alloc: Global, wanted: &mut Wanted<'_>, action: &ActionDecl<'_>) {
    match action {
        ActionDecl::Defined(defined) => find_defined(alloc, wanted, defined),
        ActionDecl::External(external) => {
            wanted.piece(" external action");
            find_names(alloc, wanted, &external.names);
            find_parents(alloc, wanted, &external.parents)
        }
    }
}

fn find_common(alloc: Global, wanted: &mut Wanted<'_>, common: &TypeDecl<'_>) {
    wanted.piece(" type");
    find_named(wanted, common.name.node.as_str(), common.name.loc);
    wanted.piece(" =");
    find_type(alloc, wanted, &common.def.node);
    wanted.place(common.def.loc);
}

fn find_declaration(alloc: Global, wanted: &mut Wanted<'_>, declaration: &Declaration<'_>) {
    match declaration {
        Declaration::Entity(entity) => find_entity(alloc, wanted, entity),
        Declaration::Action(action) => find_action(alloc, wanted, action.get()),
        Declaration::Common(common) => find_common(alloc, wanted, common),
    }
}

fn find_namespace(alloc: Global, wanted: &mut Wanted<'_>, namespace: &Namespace<'_>) {
    if let Some(name) = &namespace.name {
        wanted.piece(" namespace");
        find_path(wanted, name.get());
    }
    wanted.place(namespace.loc);
    wanted.piece("(");
    for declared in namespace.decls.as_slice() {
        find_annotations(alloc, wanted, &declared.annotations);
        find_declaration(alloc, wanted, &declared.item.node);
        wanted.place(declared.item.loc);
        wanted.piece(";");
    }
    wanted.piece(")");
}

/// The tree is found next, with all its places.
pub fn find_tree(alloc: Global, wanted: &mut Wanted<'_>, schema: &Schema<'_>) {
    wanted.piece("tree");
    for namespace in schema.as_slice() {
        find_annotations(alloc, wanted, &namespace.annotations);
        find_namespace(alloc, wanted, &namespace.item);
    }
}
