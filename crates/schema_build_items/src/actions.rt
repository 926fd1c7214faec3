ghost use Rattle.std.specs.Prelude.{◌≡◌, true, map, Some, IfOk, IfErr, OnOk, IfSome, IfNone};
ghost use Rattle.std.specs.List.{AllZip};
ghost use Rattle.schema_json_walk.specs.Bare.{is_bare_action};
ghost use Rattle.schema_resolve_definitions.specs.Declarations.{name_of};
ghost use Rattle.schema_build_checks.specs.Rows.{OrMemory};
ghost use Rattle.schema_build_expand.specs.Targets.{AreExpanded};
ghost use Rattle.schema_build_scope.specs.FragmentScope.{fragment_scope};
ghost use Rattle.schema_build_scope.specs.Parts.{IsAllKnown, AreTypesReady};
ghost use Rattle.schema_build_hierarchy.specs.Declarations.{declared_actions};
ghost use Rattle.schema_build_hierarchy.specs.Entries.{AreActions, action_of_entry};
ghost use Rattle.schema_build_items.specs.ActionKinds.{IsActionKindBuilt, IsApplyBuilt, IsApplyMeant, IsApplyReady};
ghost use Rattle.schema_build_items.specs.ActionKinds.{tests_alone};
ghost use Rattle.schema_build_items.specs.NoRecord.{LacksContext, AreContextsRecords, HasNoRecordContext, IsNoRecord};
ghost use Rattle.schema_build_items.specs.NoRecord.{IsContextError};

use crate::meant::entities_meant;
use cedar_data::{CloneIn, List, Map};
use cedar_identifiers::{Name, RawName};
use cedar_names::EntityUID;
use schema_build_errors::{ContextOrShape, ContextOrShapeNotRecordError, Refusal, SchemaError};
use schema_build_expand::laws::types_stand_for_one;
use schema_build_hierarchy::ActionEntry;
use schema_build_scope::laws::common_types_are_declared_once;
use schema_build_scope::{FragmentNames, expand_in};
use schema_build_types::{Type as BuiltType, ValidatorActionKind};
use schema_json::ApplySpec;
use std::alloc::{AllocError, Global};

/// What is built for each declared action, in the order of the entries. It refuses a fragment in which a context is no
/// record, and names the least action with such a context.
pub fn action_kinds(
    alloc: Global,
    names: &FragmentNames<'_>,
    done: &[Option<BuiltType>],
    entries: &[ActionEntry<'_>],
) -> Result<Vec<ValidatorActionKind>, Refusal>
    requires known { IsAllKnown names.now.fragment names.now.table }
    requires entries { AreActions (declared_actions names.now.fragment) entries.now }
    requires done { AreExpanded (fragment_scope names.now.fragment names.now.table) done.now }
    requires ready { AreTypesReady names.now.fragment names.now.table done.now }
    ensures kinds { IfOk result (λ kinds. AllZip (IsActionKindBuilt (tests_alone names.now.fragment names.now.table)
        (fragment_scope names.now.fragment names.now.table)) (map action_of_entry entries.now) kinds.items) }
    ensures ok { OnOk result (AreContextsRecords
        (fragment_scope names.now.fragment names.now.table) names.now.fragment) }
    ensures err { IfErr result (OrMemory (HasNoRecordContext names.now.fragment names.now.table)) }
{
    common_types_are_declared_once(names.fragment(), names.table());
    types_stand_for_one::<RawName>();
    let mut kinds = Vec::with_capacity(alloc, entries.len())?;
    for entry in entries {
        match action_kind(alloc, names, done, entry)? {
            Some(kind) => kinds.push(kind)?,
            None => return Err(no_context(alloc, &entry.name)?),
        }
    }
    Ok(kinds)
}

// The error that names this action.
fn no_context(alloc: Global, uid: &EntityUID) -> Result<Refusal, AllocError>
    ensures { IfOk result (IsContextError uid.now) }
{
    let ctx_or_shape = ContextOrShape::ActionContext(uid.clone_in(alloc)?);
    let error = ContextOrShapeNotRecordError { ctx_or_shape };
    Refusal::new(alloc, SchemaError::ContextOrShapeNotRecord(error))
}

// What is built for a declared action, unless its context is no record.
fn action_kind(
    alloc: Global,
    names: &FragmentNames<'_>,
    done: &[Option<BuiltType>],
    entry: &ActionEntry<'_>,
) -> Result<Option<ValidatorActionKind>, AllocError>
    requires meant { IsApplyMeant names.now.fragment names.now.table entry.now.ns.now entry.now.ty.now.applies_to }
    requires bare { entry.now.ty.now.external ≡ true → is_bare_action entry.now.ty.now ≡ true }
    requires done { AreExpanded (fragment_scope names.now.fragment names.now.table) done.now }
    requires ready { IsApplyReady names.now.fragment names.now.table done.now entry.now.ns.now
        entry.now.ty.now.applies_to }
    ensures some { IfOk result (λ found. IfSome found
        (IsActionKindBuilt (tests_alone names.now.fragment names.now.table)
        (fragment_scope names.now.fragment names.now.table) (action_of_entry entry.now))) }
    ensures none { IfOk result (λ found. IfNone found (LacksContext (fragment_scope names.now.fragment names.now.table)
        (action_of_entry entry.now))) }
{
    if entry.ty.external {
        return Ok(Some(ValidatorActionKind::External));
    }
    match &entry.ty.applies_to {
        Some(applies) => applied_kind(alloc, names, done, entry.ns, applies),
        None => Ok(Some(ValidatorActionKind::Defined {
            principals: List::new(alloc),
            resources: List::new(alloc),
            context: BuiltType::Record {
                attrs: Map::from_sorted_vec(Vec::new(alloc)),
                more: false,
            },
        })),
    }
}

// What is built for an action that applies to something, unless its context is no record.
fn applied_kind(
    alloc: Global,
    names: &FragmentNames<'_>,
    done: &[Option<BuiltType>],
    ns: &Option<Name>,
    applies: &ApplySpec<RawName>,
) -> Result<Option<ValidatorActionKind>, AllocError>
    requires meant { IsApplyMeant names.now.fragment names.now.table ns.now (Some applies.now) }
    requires done { AreExpanded (fragment_scope names.now.fragment names.now.table) done.now }
    requires ready { IsApplyReady names.now.fragment names.now.table done.now ns.now (Some applies.now) }
    ensures some { IfOk result (λ found. IfSome found (IsApplyBuilt (tests_alone names.now.fragment names.now.table)
        (fragment_scope names.now.fragment names.now.table) ns.now (Some applies.now))) }
    ensures none { IfOk result (λ found. IfNone found (IsNoRecord (fragment_scope names.now.fragment names.now.table)
        (name_of ns.now) applies.now.context.0)) }
{
    let context = expand_in(alloc, names, done, ns, &applies.context.0)?;
    match context {
        BuiltType::Record { attrs, more } => {
            let principals = entities_meant(alloc, names, ns, applies.principal_types.as_slice())?;
            let resources = entities_meant(alloc, names, ns, applies.resource_types.as_slice())?;
            Ok(Some(ValidatorActionKind::Defined {
                principals: List::from_vec(principals),
                resources: List::from_vec(resources),
                context: BuiltType::Record { attrs, more },
            }))
        }
        _ => Ok(None),
    }
}
