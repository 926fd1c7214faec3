ghost use Rattle.std.specs.Prelude.{◌≡◌, ◌+◌, IfOk, OnOk};
ghost use Rattle.cedar_names.specs.CanonicalText.{spaces};
ghost use Rattle.schema_syntax_tokens.specs.Laid.{laid};
ghost use Rattle.schema_syntax_tokens.specs.Quotes.{quoted};
ghost use Rattle.laws_written.specs.Printed.{path_pieces};
ghost use Rattle.schema_print_text.specs.Adds.{Adds};
ghost use Rattle.schema_print_text.specs.PrintedTypes.{printed_name};

use cedar_data::Text;
use cedar_identifiers::NameText;
use schema_syntax_tokens::push_quoted;
use std::alloc::{AllocError, Global};

/// How many spaces deeper the members of a record or of a block stand.
pub const NUM_INDENTATION_SPACES: usize = 2;

/// Adds these characters.
pub fn push(text: &mut Text, more: &str) -> Result<(), AllocError>
    ensures { OnOk result (Adds text.old text.new more.now) }
{
    text.push_str(more)
}

/// Adds the value as a string.
pub fn push_string(text: &mut Text, value: &Text) -> Result<(), AllocError>
    ensures { OnOk result (Adds text.old text.new (quoted value.now)) }
{
    push_quoted(text, value.as_str())
}

/// Adds the name: its components with `::` between two.
pub fn push_name<N: NameText>(text: &mut Text, alloc: Global, name: &N) -> Result<(), AllocError>
    ensures { OnOk result (Adds text.old text.new (laid (path_pieces (printed_name (N.components name.now))))) }
{
    let name = name.text(alloc)?;
    push(text, name.as_str())
}

/// Adds so many spaces.
pub fn push_spaces(text: &mut Text, count: usize) -> Result<(), AllocError>
    ensures { OnOk result (Adds text.old text.new (spaces count)) }
{
    let mut left = count;
    while left > 0 {
        push(text, " ")?;
        left -= 1;
    }
    Ok(())
}

/// The indentation of the members of what stands at this one. One that does not fit is refused: so many spaces fit no
/// memory.
pub fn deeper(base: usize) -> Result<usize, AllocError>
    ensures { IfOk result (λ inner. inner ≡ base + 2) }
{
    match base.checked_add(NUM_INDENTATION_SPACES) {
        Some(inner) => Ok(inner),
        None => Err(AllocError),
    }
}
