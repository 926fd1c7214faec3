//! What names and annotations stand for, or of their user faults the one that ends first.
ghost use Rattle.std.specs.Prelude.{◌∷◌, []};
ghost use Rattle.schema_syntax_parser.specs.Syntax.{AreAnnotations};
ghost use Rattle.schema_syntax_reader.specs.Sites.{name_sites, annotations, word};
ghost use Rattle.schema_syntax_reader.specs.Leaves.{AreNotes};
ghost use Rattle.schema_syntax_reader.specs.Placed.{IsScanned, IsPlacedSite, IsPlacedString, IsPlacedName};
ghost use Rattle.schema_syntax_reader.specs.Readings.{Reads};
ghost use Rattle.schema_syntax_reader.specs.Trees.{IsId, IsIdNode, IsNameOf, IsNameNode, IsChoice};

use crate::notes::some_notes;
use crate::parts::Part;
use crate::stopped::Stopped;
use crate::strings::string_value;
use crate::words::name_word;
use cedar_data::Node;
use schema_syntax_grammar::TokenKind;
use schema_syntax_parser::AnnotationSyntax;
use schema_syntax_tokens::ShortToken;
use schema_syntax_tree::{SrcAnnotations, SrcId, SrcStr};
use std::alloc::Global;

/// The annotations of an item, which were scanned from the text, or the fault of the first of their sites that has one.
pub fn notes<'a>(
    alloc: Global,
    text: &'a str,
    list: &[AnnotationSyntax],
) -> Result<SrcAnnotations<'a>, Stopped>
    requires { IsScanned AreAnnotations text.now list.now }
    ensures { Reads text.now (annotations list.now ∷ []) (λ notes. AreNotes text.now list.now notes.0) result }
{
    if list.is_empty() {
        return Ok(SrcAnnotations::new());
    }
    some_notes(alloc, text, list)
}

/// The id that a word of the text is, or the fault of its site.
pub fn id<'a>(alloc: Global, text: &'a str, token: &ShortToken) -> Result<SrcId<'a>, Stopped>
    requires { IsPlacedSite text.now (word token.now) }
    ensures { Reads text.now (name_sites token.now) (IsId text.now token.now) result }
{
    name_word(alloc, text, token)
}

/// The id that a word of the text is, with its place, or the fault of its site.
pub fn id_node<'a>(
    alloc: Global,
    text: &'a str,
    token: &ShortToken,
) -> Result<Node<SrcId<'a>>, Stopped>
    requires { IsPlacedSite text.now (word token.now) }
    ensures { Reads text.now (name_sites token.now) (IsIdNode text.now token.now) result }
{
    let node = id(alloc, text, token)?;
    Ok(Node {
        node,
        loc: Some(token.loc()),
    })
}

/// The name that a word or a string of the text is, or the fault of its site.
pub fn name<'a>(alloc: Global, text: &'a str, token: &ShortToken) -> Result<SrcStr<'a>, Stopped>
    requires { IsPlacedName text.now token.now }
    ensures { Reads text.now (name_sites token.now) (IsNameOf text.now token.now.kind token.now) result }
{
    if token.kind() == TokenKind::StringLit {
        return string_value(alloc, text, token);
    }
    let id = name_word(alloc, text, token)?;
    Ok(SrcStr::from_id(&id))
}

/// The name that a word or a string of the text is, with its place, or the fault of its site.
pub fn name_node<'a>(
    alloc: Global,
    text: &'a str,
    token: &ShortToken,
) -> Result<Node<SrcStr<'a>>, Stopped>
    requires { IsPlacedName text.now token.now }
    ensures { Reads text.now (name_sites token.now) (IsNameNode text.now token.now) result }
{
    let node = name(alloc, text, token)?;
    Ok(Node {
        node,
        loc: Some(token.loc()),
    })
}

/// The ids of a path, read from its words.
pub struct BareIds;

impl<'a> Part<'a> for BareIds {
    type Raw = ShortToken;

    type Item = SrcId<'a>;

    ghost fits = { λ text token. IsPlacedSite text (word token) };

    ghost sites = { name_sites };

    ghost stands_for = { IsId };

    fn read(alloc: Global, text: &'a str, raw: ShortToken) -> Result<SrcId<'a>, Stopped> {
        id(alloc, text, &raw)
    }
}

/// Ids, each with its place, read from words.
pub struct Ids;

impl<'a> Part<'a> for Ids {
    type Raw = ShortToken;

    type Item = Node<SrcId<'a>>;

    ghost fits = { λ text token. IsPlacedSite text (word token) };

    ghost sites = { name_sites };

    ghost stands_for = { IsIdNode };

    fn read(alloc: Global, text: &'a str, raw: ShortToken) -> Result<Node<SrcId<'a>>, Stopped> {
        id_node(alloc, text, &raw)
    }
}

/// Names, each with its place, read from words and strings.
pub struct Names;

impl<'a> Part<'a> for Names {
    type Raw = ShortToken;

    type Item = Node<SrcStr<'a>>;

    ghost fits = { IsPlacedName };

    ghost sites = { name_sites };

    ghost stands_for = { IsNameNode };

    fn read(alloc: Global, text: &'a str, raw: ShortToken) -> Result<Node<SrcStr<'a>>, Stopped> {
        name_node(alloc, text, &raw)
    }
}

/// The ids of entities, each with its place, read from strings.
pub struct Choices;

impl<'a> Part<'a> for Choices {
    type Raw = ShortToken;

    type Item = Node<SrcStr<'a>>;

    ghost fits = { IsPlacedString };

    ghost sites = { name_sites };

    ghost stands_for = { IsChoice };

    fn read(alloc: Global, text: &'a str, raw: ShortToken) -> Result<Node<SrcStr<'a>>, Stopped> {
        let node = string_value(alloc, text, &raw)?;
        Ok(Node {
            node,
            loc: Some(raw.loc()),
        })
    }
}
