ghost use Rattle.std.specs.Prelude.{◌+◌, ◌≤◌, length};
ghost use Rattle.std.specs.List.{sum_by};
ghost use Rattle.cedar_data.specs.NonEmpty.{items_left};
ghost use Rattle.schema_syntax_tree.specs.DeclaredNames.{action_names};
ghost use Rattle.schema_convert_fragments.specs.Room.{entity_count, action_count, common_count};

use cedar_data::{Node, NonEmptyIter};
use schema_syntax_tree::{ActionDecl, Annotated, Declaration};

/// How many entries declarations may give, by kind.
#[derive(Clone, Copy)]
pub struct Room {
    pub commons: usize,
    pub entities: usize,
    pub actions: usize,
}

// So many and one for each of the names.
fn with_names<T>(mut count: usize, names: NonEmptyIter<'_, T>) -> usize
    ensures { result ≤ count + length (items_left names.entry) }
{
    for _ in names {
        count = count.saturating_add(1);
    }
    count
}

// So many and one for each action.
fn with_actions(count: usize, decl: &ActionDecl<'_>) -> usize
    ensures { result ≤ count + length (action_names decl.now) }
{
    match decl {
        ActionDecl::Defined(decl) => with_names(count, decl.names.iter()),
        ActionDecl::External(decl) => with_names(count, decl.names.iter()),
    }
}

// The room with that of a declaration.
fn with_declared(room: Room, decl: &Declaration<'_>) -> Room
    ensures commons { result.commons ≤ room.commons + common_count decl.now }
    ensures entities { result.entities ≤ room.entities + entity_count decl.now }
    ensures actions { result.actions ≤ room.actions + action_count decl.now }
{
    match decl {
        Declaration::Entity(decl) => Room {
            entities: with_names(room.entities, decl.names()),
            ..room
        },
        Declaration::Action(decl) => Room {
            actions: with_actions(room.actions, decl.get()),
            ..room
        },
        Declaration::Common(_) => Room {
            commons: room.commons.saturating_add(1),
            ..room
        },
    }
}

/// The room that the entries of the declarations need: one for each name, and no more.
pub fn room_for<'a>(decls: &[Annotated<'a, Node<Declaration<'a>>>]) -> Room
    ensures commons { result.commons ≤ sum_by (λ d. common_count d.item.node) decls.now }
    ensures entities { result.entities ≤ sum_by (λ d. entity_count d.item.node) decls.now }
    ensures actions { result.actions ≤ sum_by (λ d. action_count d.item.node) decls.now }
{
    let mut room = Room {
        commons: 0,
        entities: 0,
        actions: 0,
    };
    for decl in decls {
        room = with_declared(room, &decl.item.node);
    }
    room
}
