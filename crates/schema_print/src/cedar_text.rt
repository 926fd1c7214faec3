ghost use Rattle.std.specs.Prelude.{◌≡◌, ℕ, List, IfOk};
ghost use Rattle.std.specs.Str.{encode_utf8_all};
ghost use Rattle.schema_print.specs.PartTexts.{fragment_part_text, namespace_part_text, type_part_text};
ghost use Rattle.schema_print.specs.PartTexts.{shape_part_text, record_part_text, entity_type_part_text};
ghost use Rattle.schema_print.specs.PartTexts.{standard_part_text, action_part_text};

use crate::bodies::{push_action_body, push_entity_body, push_standard};
use crate::fragments::print_fragment;
use crate::items::push_items;
use cedar_data::Text;
use cedar_identifiers::NameText;
use schema_json::{
    ActionType, AttributesOrContext, EntityType, Fragment, NamespaceDefinition, RecordType,
    StandardEntityType, Type,
};
use schema_print_text::{push_record, push_type};
use std::alloc::{AllocError, Global};

/// A part of a fragment with a text of its own.
pub trait CedarText {
    /// The bytes of the text at an indentation.
    ghost text_at: { ℕ → Self → List ℕ };

    /// The text at this indentation, in spaces.
    fn indented_text(&self, alloc: Global, base: usize) -> Result<Text, AllocError>
        ensures text { IfOk result (λ text. encode_utf8_all text ≡ text_at base self.now) };

    /// The text at no indentation.
    fn text(&self, alloc: Global) -> Result<Text, AllocError>
        ensures text { IfOk result (λ text. encode_utf8_all text ≡ text_at 0 self.now) }
    {
        self.indented_text(alloc, 0)
    }
}

// The text of a fragment, whatever the indentation is.
impl<N: NameText> CedarText for Fragment<N> {
    ghost text_at = { λ base f. fragment_part_text N.components base f };

    fn indented_text(&self, alloc: Global, _base: usize) -> Result<Text, AllocError> {
        print_fragment(alloc, self)
    }
}

// The items of a namespace, without its head, its braces and its annotations.
impl<N: NameText> CedarText for NamespaceDefinition<N> {
    ghost text_at = { λ base n. namespace_part_text N.components base n };

    fn indented_text(&self, alloc: Global, base: usize) -> Result<Text, AllocError> {
        let mut text = Text::new(alloc);
        push_items(&mut text, alloc, base, self)?;
        Ok(text)
    }
}

impl<N: NameText> CedarText for Type<N> {
    ghost text_at = { λ base t. type_part_text N.components base t };

    fn indented_text(&self, alloc: Global, base: usize) -> Result<Text, AllocError> {
        let mut text = Text::new(alloc);
        push_type(&mut text, alloc, base, self)?;
        Ok(text)
    }
}

// The text of its type.
impl<N: NameText> CedarText for AttributesOrContext<N> {
    ghost text_at = { λ base s. shape_part_text N.components base s };

    fn indented_text(&self, alloc: Global, base: usize) -> Result<Text, AllocError> {
        let mut text = Text::new(alloc);
        push_type(&mut text, alloc, base, &self.0)?;
        Ok(text)
    }
}

impl<N: NameText> CedarText for RecordType<N> {
    ghost text_at = { λ base r. record_part_text N.components base r };

    fn indented_text(&self, alloc: Global, base: usize) -> Result<Text, AllocError> {
        let mut text = Text::new(alloc);
        push_record(&mut text, alloc, base, self.attributes.as_slice())?;
        Ok(text)
    }
}

// What stands between its name and the semicolon.
impl<N: NameText> CedarText for EntityType<N> {
    ghost text_at = { λ base e. entity_type_part_text N.components base e };

    fn indented_text(&self, alloc: Global, base: usize) -> Result<Text, AllocError> {
        let mut text = Text::new(alloc);
        push_entity_body(&mut text, alloc, base, self)?;
        Ok(text)
    }
}

// What stands between its name and the semicolon.
impl<N: NameText> CedarText for StandardEntityType<N> {
    ghost text_at = { λ base e. standard_part_text N.components base e };

    fn indented_text(&self, alloc: Global, base: usize) -> Result<Text, AllocError> {
        let mut text = Text::new(alloc);
        push_standard(&mut text, alloc, base, self)?;
        Ok(text)
    }
}

// What stands between its name and the semicolon.
impl<N: NameText> CedarText for ActionType<N> {
    ghost text_at = { λ base a. action_part_text N.components base a };

    fn indented_text(&self, alloc: Global, base: usize) -> Result<Text, AllocError> {
        let mut text = Text::new(alloc);
        push_action_body(&mut text, alloc, base, self)?;
        Ok(text)
    }
}
