// Objects, member by member.
ghost use Rattle.std.specs.Prelude.{◌≡◌, ℕ, List, OnOk, map};
ghost use Rattle.serde_json.specs.Data.{Data, object};
ghost use Rattle.schema_json_text.specs.AddsValue.{AddsValue};
ghost use Rattle.schema_json_text.specs.Members.{members_in_order};

use crate::leaves::push_key;
use schema_json_quotes::pushing::push_char;
use std::alloc::{AllocError, Global};

/// What is written as a member of an object.
pub trait Member {
    /// The bytes of its key, and its value.
    ghost entry: { Self → List ℕ × Data };

    /// The key, lent.
    fn key(&self) -> &str
        ensures { result.now ≡ (entry self.now).0 };

    /// Adds the text of the value at the end.
    fn push_value(&self, out: &mut String, alloc: Global) -> Result<(), AllocError>
        ensures { OnOk result (AddsValue out.old out.new (entry self.now).1) };
}

/// Adds the object of the members, as they stand.
pub fn push_object<M: Member>(
    out: &mut String,
    alloc: Global,
    members: &[M],
) -> Result<(), AllocError>
    ensures { OnOk result (AddsValue out.old out.new (object (members_in_order (map M.entry members.now)))) }
{
    push_char(out, '{')?;
    let mut later = false;
    for member in members {
        push_key(out, later, member.key())?;
        member.push_value(out, alloc)?;
        later = true;
    }
    push_char(out, '}')
}
