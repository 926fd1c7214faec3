ghost use Rattle.laws_print.specs.Printable.Orderly.{IsOrderlyNamespace, IsOrderly};

use crate::orderly_items::{actions_are_orderly, commons_are_orderly, entities_are_orderly};
use crate::orderly_types::annotations_rise;
use cedar_identifiers::RawName;
use schema_json::{Fragment, NamespaceDefinition};

// Each namespace in memory is orderly.
fn namespace_is_orderly(namespace: &NamespaceDefinition<RawName>)
    ensures { IsOrderlyNamespace namespace.now }
{
    annotations_rise(&namespace.annotations);
    commons_are_orderly(namespace.common_types.as_slice());
    entities_are_orderly(namespace.entity_types.as_slice());
    actions_are_orderly(namespace.actions.as_slice());
}

/// Each fragment in memory is orderly: its maps rise by their keys, and its enums have a choice. The call goes over the
/// fragment and does nothing; it tells what is known of it, as of whether its text says it.
pub fn fragment_is_orderly(fragment: &Fragment<RawName>)
    ensures { IsOrderly fragment.now }
{
    for (_, namespace) in fragment.0.as_slice() {
        namespace_is_orderly(namespace);
    }
}
