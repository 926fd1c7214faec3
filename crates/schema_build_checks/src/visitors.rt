ghost use Rattle.std.specs.Prelude.{◌≡◌, [], OnOk, IfErr};
ghost use Rattle.schema_json_walk.specs.Visits.{part_of};
ghost use Rattle.schema_build_checks.specs.FirstRefused.{Refuses};
ghost use Rattle.schema_build_checks.specs.Refusing.{GivenNothing};
ghost use Rattle.schema_build_checks.specs.WalkFaults.{unknown_extension, unsupported};

use crate::refused::Refused;
use cedar_data::{CloneIn, List};
use cedar_identifiers::{Name, RawName, UnreservedId};
use cedar_names::ExtensionTable;
use schema_build_errors::UnsupportedFeature;
use schema_json_walk::{LentPart, Visitor};
use std::alloc::Global;

// Refuses the first extension type that is not in the table.
#[derive(Drop)]
pub(crate) struct Extensions<'a> {
    pub(crate) alloc: Global,
    pub(crate) table: &'a ExtensionTable,
}

impl<'a> Visitor<RawName> for Extensions<'a> {
    type Refusal = Refused<UnreservedId>;

    ghost takes = { λ ns. GivenNothing (λ v part. unknown_extension v.table.now part) };

    ghost refuses = { λ ns. Refuses (λ v part. unknown_extension v.table.now part) };

    fn visit(
        &mut self,
        _ns: &Option<Name>,
        part: LentPart<'_, RawName>,
    ) -> Result<(), Refused<UnreservedId>>
        ensures taken { OnOk result (GivenNothing (λ v part. unknown_extension v.table.now part) self.old
            (part_of part.entry) self.new) }
        ensures refused { IfErr result (Refuses (λ v part. unknown_extension v.table.now part) self.old
            (part_of part.entry)) }
    {
        match part {
            LentPart::ExtensionType { name } => {
                if self.table.has(name.id.as_str()) {
                    return Ok(());
                }
                Err(Refused::First(name.clone_in(self.alloc)?))
            }
            _ => Ok(()),
        }
    }
}

// Refuses the first part that no schema has.
#[derive(Drop)]
pub(crate) struct Features {
    pub(crate) alloc: Global,
}

impl Visitor<RawName> for Features {
    type Refusal = Refused<UnsupportedFeature>;

    ghost takes = { λ ns. GivenNothing (λ v part. unsupported part) };

    ghost refuses = { λ ns. Refuses (λ v part. unsupported part) };

    fn visit(
        &mut self,
        _ns: &Option<Name>,
        part: LentPart<'_, RawName>,
    ) -> Result<(), Refused<UnsupportedFeature>>
        ensures taken { OnOk result (GivenNothing (λ v part. unsupported part) self.old (part_of part.entry) self.new) }
        ensures refused { IfErr result (Refuses (λ v part. unsupported part) self.old (part_of part.entry)) }
    {
        match part {
            LentPart::OpenRecord => Err(Refused::First(UnsupportedFeature::OpenRecordsAndEntities)),
            LentPart::ActionAttributes { names } => {
                let names = names.clone_in(self.alloc)?;
                Err(Refused::First(UnsupportedFeature::ActionAttributes(List::from_vec(
                    names.into_vec(),
                ))))
            }
            LentPart::ExternalNotBare => Err(Refused::First(UnsupportedFeature::ExternalNotBare)),
            _ => Ok(()),
        }
    }
}

// Refuses each part that one of the two above refuses, and does not tell which.
#[derive(Drop)]
pub(crate) struct Fitting<'a> {
    pub(crate) table: &'a ExtensionTable,
}

impl<'a> Visitor<RawName> for Fitting<'a> {
    type Refusal = ();

    ghost takes = { λ ns before part after. GivenNothing (λ v p. unknown_extension v.table.now p) before part after
        × (unsupported part ≡ []) };

    ghost refuses = { λ ns before part refusal. Unit {0} };

    fn visit(&mut self, _ns: &Option<Name>, part: LentPart<'_, RawName>) -> Result<(), ()>
        ensures taken { OnOk result (GivenNothing (λ v p. unknown_extension v.table.now p) self.old (part_of
            part.entry) self.new × (unsupported (part_of part.entry) ≡ [])) }
        ensures refused { IfErr result (λ refusal. Unit {0}) }
    {
        match part {
            LentPart::ExtensionType { name } => {
                let known = self.table.has(name.id.as_str());
                if known { Ok(()) } else { Err(()) }
            }
            LentPart::OpenRecord => Err(()),
            LentPart::ActionAttributes { .. } => Err(()),
            LentPart::ExternalNotBare => Err(()),
            _ => Ok(()),
        }
    }
}
