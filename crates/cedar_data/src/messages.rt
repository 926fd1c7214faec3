//! Messages put together from ASCII wordings, whose characters are their bytes, and from texts.
ghost use Rattle.std.specs.List.{list_all};
ghost use Rattle.std.specs.Char.{is_ascii};
ghost use Rattle.std.specs.Prelude.{◌≡◌, ◌++◌, true, IfOk, OnOk};

use crate::text::Text;
use std::alloc::{AllocError, Global};

/// The ASCII wording as a text.
pub fn message(alloc: Global, wording: &str) -> Result<Text, AllocError>
    requires { list_all is_ascii wording.now ≡ true }
    ensures { IfOk result (λ copy. copy ≡ wording.now) }
{
    Text::from_str(alloc, wording)
}

/// The text between two ASCII wordings.
pub fn around(alloc: Global, before: &str, text: &Text, after: &str) -> Result<Text, AllocError>
    requires before { list_all is_ascii before.now ≡ true }
    requires after { list_all is_ascii after.now ≡ true }
    ensures { IfOk result (λ whole. whole ≡ before.now ++ (text.now ++ after.now)) }
{
    let mut whole = message(alloc, before)?;
    push_both(&mut whole, text, after)?;
    Ok(whole)
}

/// Adds the text, and an ASCII wording behind it.
pub fn push_both(whole: &mut Text, text: &Text, after: &str) -> Result<(), AllocError>
    requires { list_all is_ascii after.now ≡ true }
    ensures { OnOk result (whole.new ≡ whole.old ++ (text.now ++ after.now)) }
{
    whole.push_text(text)?;
    whole.push_str(after)?;
    Ok(())
}
