ghost use Rattle.std.specs.Prelude.{◌≡◌, ◌++◌, IfOk, OnOk, max};
ghost use Rattle.schema_syntax_errors.specs.FaultLabels.{unnamed_label, expected_label};

use crate::expected::expected_text;
use cedar_data::{Label, Loc};
use schema_syntax_grammar::TokenKind;
use std::alloc::{AllocError, Global};

/// The place from `start` to `end`, or the empty one at `start` where `end` is before it.
pub fn place(start: usize, end: usize) -> Loc
    ensures { result ≡ record { start = start; end = max start end } }
{
    Loc::new(start, start.max(end))
}

/// A label without a text, where there is a place.
pub fn bare_label(alloc: Global, place: Option<Loc>) -> Result<Vec<Label>, AllocError>
    ensures { IfOk result (λ labels. labels.items ≡ unnamed_label place) }
{
    let mut labels = Vec::new(alloc);
    push_bare(&mut labels, place)?;
    Ok(labels)
}

/// The labels without a text of two places, where there are any.
pub fn bare_labels(
    alloc: Global,
    first: Option<Loc>,
    second: Option<Loc>,
) -> Result<Vec<Label>, AllocError>
    ensures { IfOk result (λ labels. labels.items ≡ unnamed_label first ++ unnamed_label second) }
{
    let mut labels = bare_label(alloc, first)?;
    push_bare(&mut labels, second)?;
    Ok(labels)
}

// Adds the label without a text, where there is a place.
fn push_bare(labels: &mut Vec<Label>, place: Option<Loc>) -> Result<(), AllocError>
    ensures { OnOk result (labels.new.items ≡ labels.old.items ++ unnamed_label place) }
{
    if let Some(span) = place {
        labels.push(Label { span, text: None })?;
    }
    Ok(())
}

/// A label that says what was expected there.
pub fn expected_label(
    alloc: Global,
    place: Loc,
    expected: &[TokenKind],
) -> Result<Vec<Label>, AllocError>
    ensures { IfOk result (λ labels. labels.items ≡ expected_label place expected.now) }
{
    let text = expected_text(alloc, expected)?;
    let mut labels = Vec::new(alloc);
    labels.push(Label {
        span: place,
        text: Some(text),
    })?;
    Ok(labels)
}
