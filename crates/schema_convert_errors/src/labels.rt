//! Labels that say something, of places, where there are any.
ghost use Rattle.std.specs.Prelude.{◌≡◌, ◌++◌, true, OnOk};
ghost use Rattle.std.specs.List.{list_all};
ghost use Rattle.std.specs.Char.{is_ascii};
ghost use Rattle.schema_convert_errors.specs.ErrorPlaces.{saying_label};

use cedar_data::{Label, Loc, message};
use std::alloc::{AllocError, Global};

// Adds a label that says this, where there is a place.
pub(crate) fn push_saying(
    alloc: Global,
    labels: &mut Vec<Label>,
    wording: &str,
    place: Option<Loc>,
) -> Result<(), AllocError>
    requires { list_all is_ascii wording.now ≡ true }
    ensures { OnOk result (labels.new.items ≡ labels.old.items ++ saying_label wording.now place) }
{
    if let Some(span) = place {
        let text = Some(message(alloc, wording)?);
        labels.push(Label { span, text })?;
    }
    Ok(())
}
