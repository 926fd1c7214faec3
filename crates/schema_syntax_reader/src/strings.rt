//! What strings stand for.
ghost use Rattle.std.specs.Prelude.{IfOk, IfErr, OnOk};
ghost use Rattle.schema_syntax_reader.specs.Leaves.{IsStringAt};
ghost use Rattle.schema_syntax_reader.specs.Placed.{IsPlacedString};
ghost use Rattle.schema_syntax_reader.specs.Stops.{NoBadEscapeAt, IsEscapeStop};

use crate::stopped::Stopped;
use cedar_data::{Boxed, Node, NonEmpty};
use schema_syntax_errors::{UnescapeError, UserError};
use schema_syntax_tokens::laws::one_value;
use schema_syntax_tokens::{ShortToken, string_body};
use schema_syntax_tree::SrcStr;
use std::alloc::Global;

/// What the string at the token's place stands for.
pub fn string_value<'a>(
    alloc: Global,
    text: &'a str,
    token: &ShortToken,
) -> Result<SrcStr<'a>, Stopped>
    requires { IsPlacedString text.now token.now }
    ensures value { IfOk result (IsStringAt text.now token.now) }
    ensures lawful { OnOk result (NoBadEscapeAt text.now token.now) }
    ensures escape { IfErr result (IsEscapeStop text.now token.now) }
{
    one_value();
    let body = string_body(token, text).unwrap();
    match SrcStr::read(body) {
        Ok(value) => Ok(value),
        Err(place) => {
            let loc = token.loc();
            let at = loc.start + 1 + place;
            let fault = NonEmpty::new(alloc, UnescapeError { at });
            let fault = UserError::StringEscape(Node {
                node: fault,
                loc: Some(loc),
            });
            Err(Stopped::User(Boxed::new(alloc, fault)?))
        }
    }
}
