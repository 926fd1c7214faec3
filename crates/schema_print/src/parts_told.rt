ghost use Rattle.std.specs.Prelude.{◌≡◌, ◌↔◌, true, OnOk, IfErr};
ghost use Rattle.std.specs.List.{AllByRecursion};
ghost use Rattle.schema_json_walk.specs.Visits.{part_of};
ghost use Rattle.schema_json_walk.specs.Walk.{fragment_parts};
ghost use Rattle.schema_print.specs.PrintableTests.{IsPrintablePart};

use crate::either_way::is_meant_either_way;
use cedar_identifiers::{Name, RawName};
use cedar_names::ExtensionTable;
use schema_json::Fragment;
use schema_json_walk::{LentPart, Visitor, walk_fragment};

// Stops at the first part that is not printable where it stands.
#[derive(Drop)]
struct PrintableParts<'a> {
    fragment: &'a Fragment<RawName>,
    table: &'a ExtensionTable,
}

// A part is not printable.
#[derive(Drop)]
struct NotPrintable;

impl<'a> Visitor<RawName> for PrintableParts<'a> {
    type Refusal = NotPrintable;

    ghost takes = { λ ns before part after. (after ≡ before)
        × IsPrintablePart before.fragment.now before.table.now ns part };

    ghost refuses = { λ ns before part refusal. IsPrintablePart before.fragment.now before.table.now ns part → ⊥ };

    fn visit(&mut self, ns: &Option<Name>, part: LentPart<'_, RawName>) -> Result<(), NotPrintable>
        ensures taken { OnOk result ((self.new ≡ self.old)
            × IsPrintablePart self.old.fragment.now self.old.table.now ns.now (part_of part.entry)) }
        ensures refused { IfErr result (λ refusal. IsPrintablePart self.old.fragment.now self.old.table.now ns.now
            (part_of part.entry) → ⊥) }
    {
        if is_printable_part(self.fragment, self.table, ns, part) {
            Ok(())
        } else {
            Err(NotPrintable)
        }
    }
}

// Whether the part is printable where it stands.
fn is_printable_part(
    fragment: &Fragment<RawName>,
    table: &ExtensionTable,
    ns: &Option<Name>,
    part: LentPart<'_, RawName>,
) -> bool
    ensures { result ≡ true ↔ IsPrintablePart fragment.now table.now ns.now (part_of part.entry) }
{
    match part {
        LentPart::OpenRecord => false,
        LentPart::ExternalNotBare => false,
        LentPart::ActionAttributes { .. } => false,
        LentPart::ExtensionType { name } => table.has(name.id.as_str()),
        LentPart::TypeReference { kind, name } => {
            is_meant_either_way(fragment, table, ns, kind, &name.name)
        }
        _ => true,
    }
}

// Whether each part of the fragment is printable where it stands.
pub(crate) fn are_printable_parts(fragment: &Fragment<RawName>, table: &ExtensionTable) -> bool
    ensures { result ≡ true ↔ AllByRecursion (λ e. IsPrintablePart fragment.now table.now e.0 e.1)
        (fragment_parts fragment.now) }
{
    match walk_fragment(&mut PrintableParts { fragment, table }, fragment) {
        Ok(()) => true,
        Err(_) => false,
    }
}
