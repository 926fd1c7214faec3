ghost use Rattle.std.specs.Prelude.{◌≡◌, OnOk, IfOk, true};
ghost use Rattle.std.specs.Str.{encode_utf8_all};
ghost use Rattle.schema_syntax_tokens.specs.Laid.{laid};
ghost use Rattle.schema_print_text.specs.Adds.{Adds};
ghost use Rattle.schema_print.specs.PrintedFragments.{named_block, fragment_text};

use crate::items::push_items;
use crate::lists::push_between;
use cedar_data::Text;
use cedar_identifiers::{Name, NameText};
use schema_json::{Fragment, NamespaceDefinition};
use schema_print_text::{push, push_name, push_notes};
use std::alloc::{AllocError, Global};

// Adds a namespace: its items alone where it has no name, else its annotations, its head, the items and a brace.
fn push_namespace<N: NameText>(
    text: &mut Text,
    alloc: Global,
    name: &Option<Name>,
    namespace: &NamespaceDefinition<N>,
) -> Result<(), AllocError>
    ensures { OnOk result (Adds text.old text.new (laid (named_block N.components true name.now namespace.now))) }
{
    match name {
        None => push_items(text, alloc, 0, namespace),
        Some(name) => {
            push_notes(text, 0, &namespace.annotations)?;
            push(text, "namespace ")?;
            push_name(text, alloc, name)?;
            push(text, " {\n")?;
            push_items(text, alloc, 2, namespace)?;
            push(text, "}\n")
        }
    }
}

/// The text of any fragment: its namespaces in order, with an empty line between two.
pub fn print_fragment<N: NameText>(
    alloc: Global,
    fragment: &Fragment<N>,
) -> Result<Text, AllocError>
    ensures { IfOk result (λ text. encode_utf8_all text ≡ fragment_text N.components true fragment.now) }
{
    let mut text = Text::new(alloc);
    let mut behind = false;
    for (name, namespace) in fragment.0.as_slice() {
        push_between(&mut text, behind, "\n")?;
        push_namespace(&mut text, alloc, name, namespace)?;
        behind = true;
    }
    Ok(text)
}
