//! Numbers as decimal digits.
ghost use Rattle.std.specs.Prelude.{◌≡◌, decimal, IfOk, OnOk};
ghost use Rattle.std.specs.Str.{IsAscii};

use cedar_data::Text;
use itoa::Buffer;
use std::alloc::{AllocError, Global};

/// The decimal digits of a number.
pub fn number_text(alloc: Global, number: usize) -> Result<Text, AllocError>
    ensures text { IfOk result (λ text. text ≡ decimal number) }
    ensures ascii { OnOk result (IsAscii (decimal number)) }
{
    let mut buffer = Buffer::new();
    Text::from_str(alloc, buffer.format(number))
}
