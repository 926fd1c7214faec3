//! Places that errors point to.
ghost use Rattle.std.specs.Prelude.{◌≡◌, ◌++◌, IfOk, OnOk};
ghost use Rattle.schema_resolve_errors.specs.ErrorTexts.{label_at};
ghost use Rattle.schema_resolve_errors.specs.Gathered.{if_there};

use cedar_data::{Label, Loc};
use std::alloc::{AllocError, Global};

// The place, where there is one.
pub(crate) fn place_labels(alloc: Global, place: Option<Loc>) -> Result<Vec<Label>, AllocError>
    ensures { IfOk result (λ labels. labels.items ≡ if_there label_at place) }
{
    let mut labels = Vec::new(alloc);
    add_place(&mut labels, place)?;
    Ok(labels)
}

// Adds the place, where there is one.
pub(crate) fn add_place(labels: &mut Vec<Label>, place: Option<Loc>) -> Result<(), AllocError>
    ensures { OnOk result (labels.new.items ≡ labels.old.items ++ if_there label_at place) }
{
    match place {
        Some(span) => {
            labels.push(Label { span, text: None })?;
            Ok(())
        }
        None => Ok(()),
    }
}
