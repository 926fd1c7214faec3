ghost use Rattle.std.specs.Prelude.{◌≡◌, ◌++◌, IfOk, OnOk};
ghost use Rattle.std.specs.List.{flat_map};
ghost use Rattle.cedar_schema_core.specs.Plan.{warning_line};

use cedar_data::{Diagnostic, Text, around};
use schema_convert::SchemaWarning;
use std::alloc::{AllocError, Global};

// Adds a line for a warning.
fn push_warning(alloc: Global, lines: &mut Text, warning: &SchemaWarning) -> Result<(), AllocError>
    ensures { OnOk result (lines.new ≡ lines.old ++ warning_line warning.now) }
{
    let text = warning.text(alloc)?;
    let line = around(alloc, "warning: ", &text, "\n")?;
    lines.push_text(&line)
}

/// A line for each warning.
pub fn warning_lines(alloc: Global, warnings: &[SchemaWarning]) -> Result<Text, AllocError>
    ensures { IfOk result (λ text. text ≡ flat_map warning_line warnings.now) }
{
    let mut lines = Text::new(alloc);
    for warning in warnings {
        push_warning(alloc, &mut lines, warning)?;
    }
    Ok(lines)
}
