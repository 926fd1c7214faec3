//! What annotations of a text stand for.
ghost use Rattle.std.specs.Prelude.{◌≡◌, Some, IfOk, IfErr, OnOk};
ghost use Rattle.std.specs.Option.{option_map};
ghost use Rattle.std.specs.List.{All};
ghost use Rattle.schema_syntax_reader.specs.Sites.{annotations};
ghost use Rattle.schema_syntax_reader.specs.Leaves.{AreNotes};
ghost use Rattle.schema_syntax_reader.specs.Placed.{IsPlacedNote, IsPlacedValue, Rise, NoSiteFault, note_tokens};
ghost use Rattle.schema_syntax_reader.specs.Stops.{IsStoppedAt};
ghost use Rattle.schema_syntax_reader.specs.Deduplicated.{placed_key, key_place, value_of};
ghost use Rattle.schema_syntax_reader.specs.ReadNotes.{IsValueOr, IsReadOr, AreRead};

use crate::annotations::deduplicate_annotations;
use crate::stopped::Stopped;
use crate::strings::string_value;
use crate::words::any_word;
use cedar_data::{Boxed, Loc, Node};
use schema_syntax_errors::{AnnotationError, UserError};
use schema_syntax_parser::AnnotationSyntax;
use schema_syntax_tokens::ShortToken;
use schema_syntax_tree::{SrcAnnotation, SrcAnnotations, SrcStr, SrcWord};
use std::alloc::{AllocError, Global};

// Annotations up to the first whose value has a fault, and that fault.
#[derive(Drop)]
struct ReadNotes<'a> {
    notes: Vec<Node<SrcAnnotation<'a>>>,
    fault: Option<Boxed<UserError>>,
}

// What the value stands for, where there is one and it has no fault, and its fault.
fn read_value<'a>(
    alloc: Global,
    text: &'a str,
    value: &Option<ShortToken>,
) -> Result<(Option<Node<SrcStr<'a>>>, Option<Boxed<UserError>>), AllocError>
    requires { IsPlacedValue text.now value.now }
    ensures { IfOk result (λ r. IsValueOr text.now value.now r.0 r.1) }
{
    match value {
        None => Ok((None, None)),
        Some(token) => match string_value(alloc, text, token) {
            Ok(node) => Ok((
                Some(Node {
                    node,
                    loc: Some(token.loc()),
                }),
                None,
            )),
            Err(Stopped::User(fault)) => Ok((None, Some(fault))),
            Err(Stopped::Memory) => Err(AllocError),
        },
    }
}

// The annotation, and the fault of its value, where it has one.
fn read_note<'a>(
    alloc: Global,
    text: &'a str,
    note: &AnnotationSyntax,
) -> Result<(Node<SrcAnnotation<'a>>, Option<Boxed<UserError>>), AllocError>
    requires { IsPlacedNote text.now note.now }
    ensures { IfOk result (λ r. IsReadOr text.now note.now r.0 r.1) }
{
    let key = any_word(text, &note.key);
    let (value, fault) = read_value(alloc, text, &note.value)?;
    Ok((placed(key, value, note.key.loc()), fault))
}

// The annotation whose key stands there.
fn placed<'a>(
    node: SrcWord<'a>,
    value: Option<Node<SrcStr<'a>>>,
    place: Loc,
) -> Node<SrcAnnotation<'a>>
    ensures key { placed_key result ≡ node.entry }
    ensures key_place { key_place result ≡ Some place }
    ensures value { value_of result ≡ option_map (λ v. v.node) value.entry }
{
    let key = Node {
        node,
        loc: Some(place),
    };
    Node {
        node: SrcAnnotation { key, value },
        loc: Some(place),
    }
}

// The annotations, up to the first whose value has a fault.
fn read_notes<'a>(
    alloc: Global,
    text: &'a str,
    list: &[AnnotationSyntax],
) -> Result<ReadNotes<'a>, AllocError>
    requires { All (IsPlacedNote text.now) list.now }
    ensures { IfOk result (λ read. AreRead text.now list.now read.notes.items read.fault) }
{
    let mut notes = Vec::with_capacity(alloc, list.len())?;
    for note in list {
        let (read, fault) = read_note(alloc, text, note)?;
        notes.push_reserved(read);
        if let Some(fault) = fault {
            return Ok(ReadNotes {
                notes,
                fault: Some(fault),
            });
        }
    }
    Ok(ReadNotes { notes, fault: None })
}

/// What the annotations stand for, of which there are some, or the first of their faults. Most items have none, and
/// need no room for these.
#[inline(never)]
pub fn some_notes<'a>(
    alloc: Global,
    text: &'a str,
    list: &[AnnotationSyntax],
) -> Result<SrcAnnotations<'a>, Stopped>
    requires placed { All (IsPlacedNote text.now) list.now }
    requires rise { Rise (note_tokens list.now) }
    ensures notes { IfOk result (λ notes. AreNotes text.now list.now notes.0) }
    ensures lawful { OnOk result (NoSiteFault text.now (annotations list.now)) }
    ensures fault { IfErr result (IsStoppedAt text.now (annotations list.now)) }
{
    let read = read_notes(alloc, text, list)?;
    let fault = read.fault;
    match deduplicate_annotations(alloc, (), read.notes) {
        Err(AnnotationError::User(fault)) => Err(Stopped::User(Boxed::new(alloc, fault)?)),
        Err(AnnotationError::Memory) => Err(Stopped::Memory),
        Ok(annotated) => match fault {
            Some(fault) => Err(Stopped::User(fault)),
            None => Ok(annotated.into_parts().1),
        },
    }
}
