ghost use Rattle.std.specs.Prelude.{◌≡◌, List, [], OnOk, IfOk, IfErr};
ghost use Rattle.std.specs.Str.{encode_utf8_all};
ghost use Rattle.cedar_names.specs.Meaning.{SchemaMeaning};
ghost use Rattle.cedar_names.specs.CanonicalText.{canonical_text};
ghost use Rattle.schema_build_types.specs.Content.{content};
ghost use Rattle.schema_build_types.specs.Lacks.{Lack, schema_lacks};
ghost use Rattle.schema_build_types.specs.Standing.{SchemaStandsFor};
ghost use Rattle.schema_build_text.specs.Captured.{IsUncaptured, IsTextRefusal};
ghost use Rattle.schema_build_recovered_types.specs.FirstLacks.{IsFirstLack};
ghost use Rattle.schema_build_recovered.specs.Refusals.{NamesLacksFirst};

use crate::fragment::recovered_fragment;
use crate::whole::is_whole_schema;
use cedar_data::Text;
use schema_build_errors::{RecoveryError, ToTextError};
use schema_build_text::uncaptured_schema_text;
use schema_build_types::{ActionEntry, EntityTypeEntry};
use std::alloc::Global;

// The refusal for what no text says.
fn refusal(lack: RecoveryError) -> ToTextError
    ensures named { (lacks : List Lack) → IsFirstLack lacks lack → NamesLacksFirst lacks result }
    ensures memory { IsFirstLack [] lack → result ≡ ToTextError.Memory }
{
    match lack {
        RecoveryError::UnknownElement => ToTextError::Recovery(RecoveryError::UnknownElement),
        RecoveryError::JoinedEntities => ToTextError::Recovery(RecoveryError::JoinedEntities),
        RecoveryError::Unsupported => ToTextError::Recovery(RecoveryError::Unsupported),
        RecoveryError::Memory => ToTextError::Memory,
    }
}

// Refuses a schema of which no text says some type, by the first of it.
fn refuse_lack(
    alloc: Global,
    entities: &[EntityTypeEntry],
    actions: &[ActionEntry],
) -> Result<(), ToTextError>
    ensures whole { OnOk result (schema_lacks (content entities.now actions.now) ≡ []) }
    ensures lacks { IfErr result (NamesLacksFirst (schema_lacks (content entities.now actions.now))) }
    ensures memory { IfErr result (λ e. schema_lacks (content entities.now actions.now) ≡ [] → e ≡ ToTextError.Memory) }
{
    if is_whole_schema(entities, actions) {
        return Ok(());
    }
    let Err(lack) = recovered_fragment(alloc, entities, actions) else {
        return Ok(());
    };
    Err(refusal(lack))
}

/// The canonical text of a built schema of which a text says each type, and of which nothing is captured. Else the
/// refusal is the first that is lacking, `Recovery`, and where nothing is lacking the first that is captured,
/// `Captured`.
pub fn whole_schema_text(
    alloc: Global,
    entities: &[EntityTypeEntry],
    actions: &[ActionEntry],
) -> Result<Text, ToTextError>
    ensures text { IfOk result (λ text. (m : SchemaMeaning) → SchemaStandsFor entities.now actions.now m
        → encode_utf8_all text ≡ canonical_text m) }
    ensures whole { OnOk result (schema_lacks (content entities.now actions.now) ≡ []) }
    ensures uncaptured { OnOk result ((m : SchemaMeaning) → SchemaStandsFor entities.now actions.now m
        → IsUncaptured m) }
    ensures lacks { IfErr result (NamesLacksFirst (schema_lacks (content entities.now actions.now))) }
    ensures refusal { IfErr result (λ e. (m : SchemaMeaning) → SchemaStandsFor entities.now actions.now m
        → IsTextRefusal m e) }
{
    match refuse_lack(alloc, entities, actions) {
        Ok(()) => {}
        Err(lack) => return Err(lack),
    }
    match uncaptured_schema_text(alloc, entities, actions) {
        Ok(text) => Ok(text),
        Err(ToTextError::Captured(captured)) => Err(ToTextError::Captured(captured)),
        Err(_) => Err(ToTextError::Memory),
    }
}
