ghost use Rattle.std.specs.Prelude.{◌≡◌, ◌≤◌, length};
ghost use Rattle.std.specs.BTreeMap.{is_at};
ghost use Rattle.std.specs.Map.{lookup};
ghost use Rattle.std.specs.Option.{option_copied};
ghost use Rattle.cedar_data.specs.Halving.{IsGap};
ghost use Rattle.cedar_data.specs.Text.{text_cmp};
ghost use Rattle.schema_inclusion_types.specs.Kinds.{AreSorted};

use cedar_data::Text;
use schema_build_types::Type;
use std::cmp::Ordering;

// What stands at the name among attributes whose names rise, from a place on before which all names are less, and the
// place before which they still are.
pub(crate) fn seek<'a>(
    attrs: &'a [(Text, (Type, bool))],
    from: usize,
    name: &Text,
) -> (usize, Option<&'a (Type, bool)>)
    requires sorted { AreSorted attrs.now }
    requires below { IsGap text_cmp name.now attrs.now from (length attrs.now) }
    requires within { from ≤ length attrs.now }
    ensures value { option_copied result.1 ≡ lookup (is_at (text_cmp name.now)) attrs.now }
    ensures below { IsGap text_cmp name.now attrs.now result.0 (length attrs.now) }
    ensures within { result.0 ≤ length attrs.now }
{
    let mut at = from;
    while at < attrs.len() {
        let (found, value) = &attrs[at];
        match found.cmp(name) {
            Ordering::Less => at += 1,
            Ordering::Equal => return (at, Some(value)),
            Ordering::Greater => return (at, None),
        }
    }
    (at, None)
}
