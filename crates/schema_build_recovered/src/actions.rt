ghost use Rattle.std.specs.Prelude.{◌≡◌, [], OnOk, IfOk, IfErr};
ghost use Rattle.std.specs.List.{AllZip};
ghost use Rattle.cedar_names.specs.Meaning as plain;
ghost use Rattle.schema_json.specs.Shapes.{record_type};
ghost use Rattle.schema_build_types.specs.Content.{type_content, names_content, action_content};
ghost use Rattle.schema_build_text.specs.Readings.{context_attributes, action_reading};
ghost use Rattle.schema_build_recovered_types.specs.RecoveredTypes.{IsWritten, IsRecoveredType};
ghost use Rattle.schema_build_recovered.specs.Recovered.{IsRecoveredApplies, IsRecoveredAction};
ghost use Rattle.schema_build_types.specs.Lacks.{context_lacks};
ghost use Rattle.schema_build_recovered_types.specs.FirstLacks.{IsFirstLack};

use crate::sets::{parents, written_names};
use cedar_data::{CloneIn, Text};
use cedar_identifiers::{Annotations, Name, RawName};
use schema_build_errors::RecoveryError;
use schema_build_recovered_types::types::{only_name, recovered_record};
use schema_build_types::{ActionEntry, Type as BuiltType, ValidatorActionKind};
use schema_json::{ActionType, ApplySpec, AttributesOrContext, RecordType};
use std::alloc::Global;

// The record that a context is to be.
fn recovered_context(
    alloc: Global,
    context: &BuiltType,
) -> Result<RecordType<RawName>, RecoveryError>
    ensures recovered { IfOk result (λ r. IsRecoveredType (plain.Rec (context_attributes (type_content context.now)))
        (record_type r)) }
    ensures whole { OnOk result (context_lacks (type_content context.now) ≡ []) }
    ensures lack { IfErr result (IsFirstLack (context_lacks (type_content context.now))) }
{
    match context {
        BuiltType::Record { attrs, more } => {
            if *more {
                return Err(RecoveryError::Unsupported);
            }
            recovered_record(alloc, attrs)
        }
        BuiltType::Set { element } => match element {
            Some(_) => Err(RecoveryError::Unsupported),
            None => Err(RecoveryError::UnknownElement),
        },
        BuiltType::Entity { names } => match only_name(names.get()) {
            Some(_) => Err(RecoveryError::Unsupported),
            None => Err(RecoveryError::JoinedEntities),
        },
        BuiltType::Extension { .. } => Err(RecoveryError::Unsupported),
        BuiltType::Never
        | BuiltType::AnyBool
        | BuiltType::True
        | BuiltType::False
        | BuiltType::Long
        | BuiltType::String
        | BuiltType::AnyEntity => Err(RecoveryError::Unsupported),
    }
}

// What the action applies to.
fn recovered_spec(
    alloc: Global,
    principals: &[Name],
    resources: &[Name],
    context: &BuiltType,
) -> Result<ApplySpec<RawName>, RecoveryError>
    ensures principals { IfOk result (λ s. AllZip IsWritten (names_content principals.now) s.principal_types) }
    ensures resources { IfOk result (λ s. AllZip IsWritten (names_content resources.now) s.resource_types) }
    ensures context { IfOk result (λ s. IsRecoveredType (plain.Rec (context_attributes (type_content context.now)))
        s.context.0) }
    ensures whole { OnOk result (context_lacks (type_content context.now) ≡ []) }
    ensures lack { IfErr result (IsFirstLack (context_lacks (type_content context.now))) }
{
    let context = recovered_context(alloc, context)?;
    let principal_types = written_names(alloc, principals)?;
    let resource_types = written_names(alloc, resources)?;
    Ok(ApplySpec {
        resource_types,
        principal_types,
        context: AttributesOrContext::from_record(context),
    })
}

// What the action applies to, where another schema does not declare it.
fn recovered_applies_to(
    alloc: Global,
    entry: &ActionEntry,
) -> Result<Option<ApplySpec<RawName>>, RecoveryError>
    ensures recovered { IfOk result (IsRecoveredApplies (action_reading (action_content entry.now))
        (action_content entry.now).is_external) }
    ensures whole { OnOk result (context_lacks (action_content entry.now).context ≡ []) }
    ensures lack { IfErr result (IsFirstLack (context_lacks (action_content entry.now).context)) }
{
    match &entry.action.kind {
        ValidatorActionKind::Defined {
            principals,
            resources,
            context,
        } => {
            let spec = recovered_spec(alloc, principals.as_slice(), resources.as_slice(), context)?;
            Ok(Some(spec))
        }
        ValidatorActionKind::External => Ok(None),
    }
}

/// The action, under its id.
pub fn recovered_action(
    alloc: Global,
    entry: &ActionEntry,
) -> Result<(Text, ActionType<RawName>), RecoveryError>
    ensures recovered { IfOk result (IsRecoveredAction (action_reading (action_content entry.now))) }
    ensures whole { OnOk result (context_lacks (action_content entry.now).context ≡ []) }
    ensures lack { IfErr result (IsFirstLack (context_lacks (action_content entry.now).context)) }
{
    let applies_to = recovered_applies_to(alloc, entry)?;
    let member_of = parents(alloc, entry.action.ancestors.as_slice())?;
    let id = entry.uid.eid.0.clone_in(alloc)?;
    let external = matches!(&entry.action.kind, ValidatorActionKind::External);
    let annotations = Annotations::new(alloc);
    Ok((
        id,
        ActionType {
            attributes: None,
            applies_to,
            member_of,
            external,
            annotations,
            loc: None,
        },
    ))
}
