ghost use Rattle.std.specs.Prelude.{◌≡◌, true, IfOk, OnOk, IfErr};
ghost use Rattle.schema_build_checks.specs.Rows.{Never, OrMemory};
ghost use Rattle.schema_build_checks.specs.WalkFaults.{HasUnknownExtension, HasUnsupported, NamesExtension};

use crate::refused::Refused;
use crate::visitors::{Extensions, Features, Fitting};
use cedar_identifiers::{Name, RawName, UnreservedId};
use cedar_names::ExtensionTable;
use schema_build_errors::{
    Refusal, SchemaError, UnknownExtensionTypeError, UnsupportedFeature, UnsupportedFeatureError,
};
use schema_json::Fragment;
use schema_json_walk::laws::fragment_gives_what_its_parts_give;
use schema_json_walk::walk_fragment;
use schema_resolve_definitions::declared::alone;
use std::alloc::{AllocError, Global};

/// Whether the fragment has neither an extension type that is not in the table nor what no schema has. One walk tells
/// it of most fragments, which then need not be walked for each of the two.
pub fn has_fitting_parts(fragment: &Fragment<RawName>, table: &ExtensionTable) -> bool
    ensures extensions { result ≡ true → Never (HasUnknownExtension table.now fragment.now) }
    ensures features { result ≡ true → Never (HasUnsupported fragment.now) }
{
    fragment_gives_what_its_parts_give::<RawName, UnreservedId>(fragment);
    fragment_gives_what_its_parts_give::<RawName, UnsupportedFeature>(fragment);
    match walk_fragment(&mut Fitting { table }, fragment) {
        Ok(()) => true,
        Err(()) => false,
    }
}

/// Refuses a fragment with an extension type that is not in the table, and names the first in the order of the walk.
pub fn check_extension_types(
    alloc: Global,
    fragment: &Fragment<RawName>,
    table: &ExtensionTable,
) -> Result<(), Refusal>
    ensures ok { OnOk result (Never (HasUnknownExtension table.now fragment.now)) }
    ensures err { IfErr result (OrMemory (HasUnknownExtension table.now fragment.now)) }
{
    fragment_gives_what_its_parts_give::<RawName, UnreservedId>(fragment);
    match walk_fragment(&mut Extensions { alloc, table }, fragment) {
        Ok(()) => Ok(()),
        Err(Refused::First(id)) => Err(unknown(alloc, id)?),
        Err(Refused::Memory) => Err(Refusal::memory()),
    }
}

/// Refuses a fragment with an open record, with attributes of an action or with an external item that is not bare, and
/// names the first in the order of the walk.
pub fn check_features(alloc: Global, fragment: &Fragment<RawName>) -> Result<(), Refusal>
    ensures ok { OnOk result (Never (HasUnsupported fragment.now)) }
    ensures err { IfErr result (OrMemory (HasUnsupported fragment.now)) }
{
    fragment_gives_what_its_parts_give::<RawName, UnsupportedFeature>(fragment);
    match walk_fragment(&mut Features { alloc }, fragment) {
        Ok(()) => Ok(()),
        Err(Refused::First(feature)) => {
            let error = UnsupportedFeatureError(feature);
            Err(Refusal::new(alloc, SchemaError::UnsupportedFeature(error))?)
        }
        Err(Refused::Memory) => Err(Refusal::memory()),
    }
}

// The error that names this extension type.
fn unknown(alloc: Global, id: UnreservedId) -> Result<Refusal, AllocError>
    ensures { IfOk result (NamesExtension id) }
{
    let name = alone(alloc, id.into_id());
    let actual = Name { name };
    let error = UnknownExtensionTypeError { actual };
    Refusal::new(alloc, SchemaError::UnknownExtensionType(error))
}
