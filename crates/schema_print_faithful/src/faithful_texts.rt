ghost use Rattle.std.specs.Prelude.{◌≡◌, true, IfOk, IfSome, IfNone};
ghost use Rattle.std.specs.Str.{encode_utf8_all};
ghost use Rattle.schema_print.specs.Printable.{IsPrintable};
ghost use Rattle.schema_print.specs.PrintedFragments.{fragment_text};
ghost use Rattle.laws_print.specs.Printed.CedarForm.{cedar_form};
ghost use Rattle.laws_print.specs.Printed.Textual.{components_written};
ghost use Rattle.laws_print.specs.Printable.ReadAs.{IsReadAs, ResolveAlike};

use crate::orderly_fragments::fragment_is_orderly;
use cedar_data::Text;
use cedar_identifiers::RawName;
use cedar_names::ExtensionTable;
use laws_print::printable_fragments::printable_fragments_read_back;
use schema_json::Fragment;
use schema_print::{is_printable, print_fragment};
use std::alloc::{AllocError, Global};

/// The text of the fragment where the text says the fragment under this table, and else none. Such a text has no
/// fault, and is read as the fragment in the form that its text has, places aside; and that form resolves as the
/// fragment does.
pub fn faithful_text(
    alloc: Global,
    fragment: &Fragment<RawName>,
    table: &ExtensionTable,
) -> Result<Option<Text>, AllocError>
    ensures text { IfOk result (λ found. IfSome found (λ text.
        encode_utf8_all text ≡ fragment_text components_written true fragment.now)) }
    ensures reads { IfOk result (λ found. IfSome found (λ text.
        IsReadAs (encode_utf8_all text) table.now (cedar_form fragment.now))) }
    ensures resolves { IfOk result (λ found. IfSome found (λ text.
        ResolveAlike fragment.now (cedar_form fragment.now) table.now)) }
    ensures none { IfOk result (λ found. IfNone found (IsPrintable fragment.now table.now → ⊥)) }
{
    if !is_printable(fragment, table) {
        return Ok(None);
    }
    fragment_is_orderly(fragment);
    printable_fragments_read_back();
    Ok(Some(print_fragment(alloc, fragment)?))
}
