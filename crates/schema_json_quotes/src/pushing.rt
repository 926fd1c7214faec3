// Adding to a text.
ghost use Rattle.std.specs.Prelude.{◌<◌, [], ◌∷◌, OnOk};
ghost use Rattle.schema_json_quotes.specs.Adds.{Adds};

use std::alloc::AllocError;

/// Adds the text.
pub fn push(out: &mut String, text: &str) -> Result<(), AllocError>
    ensures { OnOk result (Adds out.old out.new text.now) }
{
    out.push_str(text)
}

/// Adds a character of ASCII.
pub fn push_char(out: &mut String, mark: char) -> Result<(), AllocError>
    requires { mark < 128 }
    ensures { OnOk result (Adds out.old out.new (mark ∷ [])) }
{
    out.push(mark)
}
