//! Texts in a row, for messages.
ghost use Rattle.std.specs.List.{list_all};
ghost use Rattle.std.specs.Char.{is_ascii};
ghost use Rattle.std.specs.Prelude.{◌≡◌, true, codes, IfOk};
ghost use Rattle.cedar_data.specs.Rows.{joined_by, listed, separator, and_list, by_number};

use crate::messages::message;
use crate::text::Text;
use std::alloc::{AllocError, Global};

/// The texts with `, ` between two.
pub fn comma_list(alloc: Global, texts: &[Text]) -> Result<Text, AllocError>
    ensures { IfOk result (λ list. list ≡ joined_by (codes ", ") texts.now) }
{
    listed(alloc, texts, ", ", ", ")
}

/// One text alone, two joined by ` and `, and more by `, ` with `, and ` before the last.
pub fn and_list(alloc: Global, texts: &[Text]) -> Result<Text, AllocError>
    ensures { IfOk result (λ list. list ≡ and_list texts.now) }
{
    if texts.len() == 2 {
        listed(alloc, texts, ", ", " and ")
    } else {
        listed(alloc, texts, ", ", ", and ")
    }
}

/// What is said of one, or of several where there are more. Both are ASCII.
pub fn by_number(
    alloc: Global,
    texts: &[Text],
    one: &str,
    several: &str,
) -> Result<Text, AllocError>
    requires one { list_all is_ascii one.now ≡ true }
    requires several { list_all is_ascii several.now ≡ true }
    ensures { IfOk result (λ said. said ≡ by_number one.now several.now texts.now) }
{
    message(alloc, if texts.len() > 1 { several } else { one })
}

// The texts with `between` between two, and `before_last` before the last.
fn listed(
    alloc: Global,
    texts: &[Text],
    between: &str,
    before_last: &str,
) -> Result<Text, AllocError>
    requires between { list_all is_ascii between.now ≡ true }
    requires before_last { list_all is_ascii before_last.now ≡ true }
    ensures { IfOk result (λ list. list ≡ listed between.now before_last.now texts.now) }
{
    let mut list = Text::new(alloc);
    let mut left = texts;
    while let Some((text, rest)) = left.split_first() {
        list.push_text(text)?;
        list.push_str(separator(rest, between, before_last))?;
        left = rest;
    }
    Ok(list)
}

/// What stands before the items that are left of a row: nothing, `before_last` where one is left, and else `between`.
pub fn separator<'a, T>(left: &[T], between: &'a str, before_last: &'a str) -> &'a str
    ensures { result.now ≡ separator between.now before_last.now left.now }
{
    match left {
        [] => "",
        [_] => before_last,
        _ => between,
    }
}
