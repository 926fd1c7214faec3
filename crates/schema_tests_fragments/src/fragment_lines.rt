// A fragment, translated or resolved, found in a line piece by piece.

use cedar_data::{Loc, Text};
use cedar_identifiers::{Annotations, InternalName, NameText, RawName};
use schema_json::{
    ActionEntityUID, ActionType, ApplySpec, CommonType, EntityType, EntityTypeKind, Fragment,
    NamespaceDefinition, StandardEntityType, Type, TypeOfAttribute, TypeVariant,
};
use schema_tests_lines::Wanted;

// How many levels of types are looked at, which is more than any text of the tables has.
const LEVELS: usize = 100;

/// The names of a fragment.
pub trait Listed: NameText {
    /// Whether lines have places, annotations and what is external, which a resolved fragment has from the one that it is made of.
    const WHOLE: bool;

    /// The name's components and its place.
    fn name(&self) -> &InternalName;
}

impl Listed for RawName {
    const WHOLE: bool = true;

    fn name(&self) -> &InternalName {
        &self.name
    }
}

impl Listed for InternalName {
    const WHOLE: bool = false;

    fn name(&self) -> &InternalName {
        self
    }
}

fn find_place<N: Listed>(wanted: &mut Wanted<'_>, place: Option<Loc>) {
    if N::WHOLE {
        wanted.place(place);
    }
}

fn find_mark<N: Listed>(wanted: &mut Wanted<'_>, mark: &str, holds: bool) {
    if N::WHOLE && holds {
        wanted.piece(mark);
    }
}

// The components with `::` between two.
fn find_components(wanted: &mut Wanted<'_>, name: &InternalName) {
    wanted.piece(name.first.as_str());
    for id in name.others.as_slice() {
        wanted.piece("::");
        wanted.piece(id.as_str());
    }
}

// The name behind the mark of its kind, and its place.
fn find_name<N: Listed>(wanted: &mut Wanted<'_>, mark: &str, name: &N) {
    let name = name.name();
    wanted.piece(mark);
    find_components(wanted, name);
    find_place::<N>(wanted, name.loc);
}

fn find_names<N: Listed>(wanted: &mut Wanted<'_>, names: &[N]) {
    for name in names {
        find_name(wanted, " ", name);
    }
}

fn find_notes<N: Listed>(wanted: &mut Wanted<'_>, notes: &Annotations) {
    if N::WHOLE {
        for (key, value) in notes.0.as_slice() {
            wanted.piece(" #");
            wanted.piece(key.as_str());
            if let Some(value) = value {
                wanted.piece("=");
                wanted.piece(value.as_str());
            }
        }
    }
}

// A type, down to so many levels.
#[cycle(fragment)]
fn find_type<N: Listed>(wanted: &mut Wanted<'_>, ty: &Type<N>, levels: usize) {
    if levels == 0 {
        return;
    }
    match ty {
        Type::CommonTypeRef { type_name, loc } => {
            find_name(wanted, " c", type_name);
            find_place::<N>(wanted, *loc);
        }
        Type::Variant { ty, loc } => {
            find_variant(wanted, ty, levels - 1);
            find_place::<N>(wanted, *loc);
        }
    }
}

// What a type is.
#[cycle(fragment)]
fn find_variant<N: Listed>(wanted: &mut Wanted<'_>, ty: &TypeVariant<N>, levels: usize) {
    if levels == 0 {
        return;
    }
    match ty {
        TypeVariant::Set { element } => {
            wanted.piece(" <");
            find_type(wanted, element.get(), levels - 1);
            wanted.piece(">");
        }
        TypeVariant::Record(fields) => {
            find_fields(wanted, fields.attributes.as_slice(), levels - 1);
        }
        TypeVariant::EntityOrCommon { type_name } => find_name(wanted, " ", type_name),
        TypeVariant::Entity { name } => find_name(wanted, " e", name),
        _ => wanted.piece(" other"),
    }
}

// The attributes of a record.
#[cycle(fragment)]
fn find_fields<N: Listed>(
    wanted: &mut Wanted<'_>,
    fields: &[(Text, TypeOfAttribute<N>)],
    levels: usize,
) {
    if levels == 0 {
        return;
    }
    wanted.piece(" {");
    for (name, attribute) in fields {
        find_notes::<N>(wanted, &attribute.annotations);
        wanted.piece(" ");
        wanted.piece(name.as_str());
        wanted.piece(if attribute.required { ":" } else { "?:" });
        find_type(wanted, &attribute.ty, levels - 1);
    }
    wanted.piece("}");
}

// A declared name behind its word, with what every declaration has.
fn find_declared<N: Listed>(
    wanted: &mut Wanted<'_>,
    word: &str,
    name: &str,
    notes: &Annotations,
    place: Option<Loc>,
) {
    find_notes::<N>(wanted, notes);
    wanted.piece(word);
    wanted.piece(name);
    find_place::<N>(wanted, place);
}

fn find_standard<N: Listed>(wanted: &mut Wanted<'_>, standard: &StandardEntityType<N>) {
    find_names(wanted, standard.member_of_types.as_slice());
    find_type(wanted, &standard.shape.0, LEVELS);
    if let Some(tags) = &standard.tags {
        wanted.piece(" tags");
        find_type(wanted, tags.get(), LEVELS);
    }
}

fn find_entity<N: Listed>(wanted: &mut Wanted<'_>, name: &str, of: &EntityType<N>) {
    find_mark::<N>(wanted, " external", of.external);
    find_declared::<N>(wanted, " entity ", name, &of.annotations, of.loc);
    match &of.kind {
        EntityTypeKind::Enum { choices } => {
            wanted.piece(" enum");
            for choice in choices.get().iter() {
                wanted.piece(" ");
                wanted.piece(choice.0.as_str());
            }
        }
        EntityTypeKind::Standard(standard) => find_standard(wanted, standard.get()),
    }
}

// A parent: its type, where it has one, and its id.
fn find_parent<N: Listed>(wanted: &mut Wanted<'_>, parent: &ActionEntityUID<N>) {
    wanted.piece(" in ");
    if let Some(ty) = &parent.ty {
        find_name(wanted, "", ty);
        wanted.piece("=");
    }
    wanted.piece(parent.id.as_str());
}

fn find_parents<N: Listed>(wanted: &mut Wanted<'_>, parents: &[ActionEntityUID<N>]) {
    find_mark::<N>(wanted, " members", true);
    for parent in parents {
        find_parent(wanted, parent);
    }
}

fn find_applies<N: Listed>(wanted: &mut Wanted<'_>, spec: &ApplySpec<N>) {
    wanted.piece(" principal");
    find_names(wanted, spec.principal_types.as_slice());
    wanted.piece(" resource");
    find_names(wanted, spec.resource_types.as_slice());
    wanted.piece(" context");
    find_type(wanted, &spec.context.0, LEVELS)
}

fn find_action<N: Listed>(wanted: &mut Wanted<'_>, name: &str, of: &ActionType<N>) {
    find_mark::<N>(wanted, " external", of.external);
    find_mark::<N>(wanted, " attributes", of.attributes.is_some());
    find_declared::<N>(wanted, " action ", name, &of.annotations, of.loc);
    if let Some(parents) = &of.member_of {
        find_parents(wanted, parents.as_slice());
    }
    if let Some(spec) = &of.applies_to {
        find_applies(wanted, spec);
    }
}

fn find_common<N: Listed>(wanted: &mut Wanted<'_>, name: &str, of: &CommonType<N>) {
    find_declared::<N>(wanted, " type ", name, &of.annotations, of.loc);
    find_type(wanted, &of.ty, LEVELS)
}

fn find_definition<N: Listed>(wanted: &mut Wanted<'_>, definition: &NamespaceDefinition<N>) {
    find_notes::<N>(wanted, &definition.annotations);
    for (name, of) in definition.common_types.as_slice() {
        find_common(wanted, name.id.as_str(), of);
    }
    for (name, of) in definition.entity_types.as_slice() {
        find_entity(wanted, name.as_str(), of);
    }
    for (name, of) in definition.actions.as_slice() {
        find_action(wanted, name.as_str(), of);
    }
}

// A namespace in brackets.
fn find_namespace<N: Listed>(
    wanted: &mut Wanted<'_>,
    name: Option<&InternalName>,
    definition: &NamespaceDefinition<N>,
) {
    wanted.piece("[");
    if let Some(name) = name {
        find_components(wanted, name);
        find_place::<N>(wanted, name.loc);
    }
    find_definition(wanted, definition);
    wanted.piece("]");
}

/// Whether the answer says this fragment.
pub fn says_fragment<N: Listed>(answer: &str, fragment: &Fragment<N>) -> bool {
    let mut wanted = Wanted::new(answer);
    for (name, definition) in fragment.0.as_slice() {
        match name {
            Some(name) => find_namespace(&mut wanted, Some(&name.name), definition),
            None => find_namespace(&mut wanted, None, definition),
        }
    }
    wanted.is_met()
}
