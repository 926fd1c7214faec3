ghost use Rattle.std.specs.Prelude.{◌≡◌, ◌↔◌, true};
ghost use Rattle.schema_print.specs.Printable.{IsPrintable};

use crate::parts_told::are_printable_parts;
use crate::printable_items::are_printable_namespaces;
use cedar_identifiers::RawName;
use cedar_names::ExtensionTable;
use schema_json::Fragment;

/// Whether the text of the fragment says what the fragment says: records are closed, external items are bare, shapes
/// are records, contexts are records or common types, actions apply to principals and resources or to nothing and have
/// no attributes, no annotation stands at the empty namespace, names are not used twice, nor any of the eight words by
/// a common type, extension types are in the table, and references mean what their names mean. It takes no memory.
pub fn is_printable(fragment: &Fragment<RawName>, table: &ExtensionTable) -> bool
    ensures { result ≡ true ↔ IsPrintable fragment.now table.now }
{
    are_printable_namespaces(fragment.0.as_slice()) && are_printable_parts(fragment, table)
}
