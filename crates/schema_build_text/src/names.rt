ghost use Rattle.std.specs.Prelude.{◌≡◌, ◌++◌, OnOk, ◌∷◌};
ghost use Rattle.std.specs.Cmp.Lexicographic.{slice_cmp};
ghost use Rattle.cedar_data.specs.Text.{text_cmp};
ghost use Rattle.cedar_identifiers.specs.Names.{components_of, name_text, texts_of};
ghost use Rattle.cedar_names.specs.CanonicalText.{basename, namespace};
ghost use Rattle.cedar_names.specs.Definitions.{same_name};
ghost use Rattle.schema_build_text.specs.Adds.{Adds};
ghost use Rattle.schema_build_text.specs.Items.{base_in, item_end, opening, closing, break_between};

use crate::pushing::push;
use cedar_identifiers::{Id, InternalName};
use std::alloc::AllocError;
use std::cmp::Ordering;

// Adds the words with `::` between two.
fn push_path(text: &mut String, first: &Id, others: &[Id]) -> Result<(), AllocError>
    ensures { OnOk result (Adds text.old text.new (name_text (texts_of (first.now ∷ others.now)))) }
{
    push(text, first.as_str())?;
    for id in others {
        push(text, "::")?;
        push(text, id.as_str())?;
    }
    Ok(())
}

/// Adds the name: its components with `::` between two.
pub fn push_name(text: &mut String, name: &InternalName) -> Result<(), AllocError>
    ensures { OnOk result (Adds text.old text.new (name_text (components_of name.now))) }
{
    push_path(text, &name.first, name.others.as_slice())
}

/// Adds the last component of the name.
pub fn push_basename(text: &mut String, name: &InternalName) -> Result<(), AllocError>
    ensures { OnOk result (Adds text.old text.new (basename (components_of name.now))) }
{
    match name.others.as_slice().split_last() {
        Some((last, _)) => push(text, last.as_str()),
        None => push(text, name.first.as_str()),
    }
}

/// How deep the items of the name's namespace stand.
pub fn base_of(name: &InternalName) -> usize
    ensures { result ≡ base_in (namespace (components_of name.now)) }
{
    if name.others.as_slice().is_empty() {
        0
    } else {
        2
    }
}

/// Adds the head of the name's namespace, where that has a name.
pub fn push_opening(text: &mut String, name: &InternalName) -> Result<(), AllocError>
    ensures { OnOk result (Adds text.old text.new (opening (namespace (components_of name.now)))) }
{
    match name.others.as_slice().split_last() {
        Some((_, front)) => {
            push(text, "namespace ")?;
            push_path(text, &name.first, front)?;
            push(text, " {\n")
        }
        None => Ok(()),
    }
}

/// Adds the end of an item, and behind it the end of the name's namespace, where that has a name.
pub fn push_closing(text: &mut String, name: &InternalName) -> Result<(), AllocError>
    ensures { OnOk result (Adds text.old text.new (item_end ++ closing (namespace (components_of name.now)))) }
{
    if name.others.as_slice().is_empty() {
        push(text, ";\n")
    } else {
        push(text, ";\n}\n")
    }
}

/// Adds the end of an item whose namespace is that of the one name, and what stands between it and an item whose
/// namespace is that of the other.
pub fn push_break(
    text: &mut String,
    before: &InternalName,
    behind: &InternalName,
) -> Result<(), AllocError>
    ensures { OnOk result (Adds text.old text.new (item_end ++ break_between (namespace (components_of before.now))
        (namespace (components_of behind.now)))) }
{
    if are_together(before, behind) {
        return push(text, ";\n\n");
    }
    push_closing(text, before)?;
    push(text, "\n")?;
    push_opening(text, behind)
}

/// Whether the names have the same namespace.
pub fn are_together(a: &InternalName, b: &InternalName) -> bool
    ensures { result ≡ same_name (namespace (components_of a.now)) (namespace (components_of b.now)) }
{
    compare_namespaces(a, b).is_eq()
}

/// The namespaces of the names, compared.
pub fn compare_namespaces(a: &InternalName, b: &InternalName) -> Ordering
    ensures { result ≡ slice_cmp text_cmp (namespace (components_of a.now)) (namespace (components_of b.now)) }
{
    match a.others.as_slice().split_last() {
        None => match b.others.as_slice().split_last() {
            None => Ordering::Equal,
            Some(_) => Ordering::Less,
        },
        Some((_, a_front)) => match b.others.as_slice().split_last() {
            None => Ordering::Greater,
            Some((_, b_front)) => match a.first.cmp(&b.first) {
                Ordering::Less => Ordering::Less,
                Ordering::Greater => Ordering::Greater,
                Ordering::Equal => a_front.cmp(b_front),
            },
        },
    }
}
