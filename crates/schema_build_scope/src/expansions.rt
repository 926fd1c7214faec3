ghost use Rattle.std.specs.Prelude.{◌≡◌, ◌<◌, All, length, map, IfOk, IfErr, OnOk};
ghost use Rattle.schema_resolve_definitions.specs.Declarations.{name_of};
ghost use Rattle.schema_build_checks.specs.Rows.{Never, OrMemory};
ghost use Rattle.schema_build_expand.specs.Scope.{Scope};
ghost use Rattle.schema_build_expand.specs.Targets.{AreExpanded, ExpandsTo};
ghost use Rattle.schema_build_scope.specs.Commons.{commons_in_order};
ghost use Rattle.schema_build_scope.specs.CycleRow.{HasCommonCycle};
ghost use Rattle.schema_build_scope.specs.FragmentScope.{fragment_scope};
ghost use Rattle.schema_build_scope.specs.Lent.{lent_at};
ghost use Rattle.schema_build_scope.specs.LentCommons.{NamesCycleAt, lent_commons, lent_type};
ghost use Rattle.schema_build_scope.specs.LentRounds.{IsRoundFault, NoneReachesItself};
ghost use Rattle.schema_build_scope.specs.Parts.{IsAllKnown, AreTypesMeant, AreTypesReady, IsTypeReady};

use crate::fragment_names::FragmentNames;
use crate::lent_commons::LentType;
use crate::lent_uses::used_types;
use crate::names_in::NamesIn;
use cedar_data::CloneIn;
use cedar_identifiers::{InternalName, Name, RawName};
use schema_build_errors::{CycleInCommonTypeReferencesError, Refusal, SchemaError};
use schema_build_expand::{expand_type, expansions};
use schema_build_graph::OrderFault;
use schema_build_types::{DEEPEST, Type as BuiltType, is_deeper};
use schema_json::Type;
use std::alloc::{AllocError, Global};

/// What the declared common types stand for that shapes, types of tags and contexts lead to, by their ranks in the
/// order of full names. It refuses a fragment in which a common type reaches itself by references, and names the least
/// such.
pub fn expand_used_commons(
    alloc: Global,
    names: &FragmentNames<'_>,
) -> Result<Vec<Option<BuiltType>>, Refusal>
    requires known { IsAllKnown names.now.fragment names.now.table }
    ensures expanded { IfOk result (λ done. AreExpanded
        (fragment_scope names.now.fragment names.now.table) done.items) }
    ensures ready { IfOk result (λ done. AreTypesReady names.now.fragment names.now.table done.items) }
    ensures ok { OnOk result (Never (HasCommonCycle names.now.fragment names.now.table)) }
    ensures err { IfErr result (OrMemory (HasCommonCycle names.now.fragment names.now.table)) }
{
    let entries = names.commons();
    match expand_lent(alloc, names, entries) {
        Ok(done) => Ok(done),
        Err(OrderFault::Cycle(rank)) => Err(common_cycle(alloc, entries, rank)?),
        Err(OrderFault::Memory) => Err(Refusal::memory()),
    }
}

// What the common types of these entries stand for, which are all that are declared, where types that are used lead to
// them; else the least rank that reaches itself by references.
fn expand_lent<'n, 'f>(
    alloc: Global,
    names: &'n FragmentNames<'f>,
    entries: &'n [(InternalName, LentType<'f>)],
) -> Result<Vec<Option<BuiltType>>, OrderFault>
    ghost s: { Scope RawName }
    requires same { s ≡ fragment_scope names.now.fragment names.now.table }
    requires entries { lent_commons entries.now ≡ commons_in_order names.now.fragment }
    requires meant { AreTypesMeant names.now.fragment names.now.table }
    ensures expanded { IfOk result (λ done. AreExpanded s done.items) }
    ensures ready { IfOk result (λ done. AreTypesReady names.now.fragment names.now.table done.items) }
    ensures acyclic { OnOk result (NoneReachesItself s) }
    ensures fault { IfErr result (IsRoundFault s) }
{
    let commons = commons_of(alloc, names, entries)?;
    let lent = used_types(alloc, names.fragment())?;
    let uses = uses_of(alloc, names, &lent)?;
    expansions(alloc, &commons, &uses)
}

// The types of these entries, each beside what names mean where it is declared.
fn commons_of<'n, 'f>(
    alloc: Global,
    names: &'n FragmentNames<'f>,
    entries: &'n [(InternalName, LentType<'f>)],
) -> Result<Vec<(NamesIn<'n, 'f>, &'n Type<RawName>)>, AllocError>
    ensures names { IfOk result (λ commons. All (λ c. c.0.names.now ≡ names.now) commons.items) }
    ensures commons { IfOk result (λ commons. map lent_at commons.items ≡ map (λ e. lent_type e.1) entries.now) }
{
    let mut commons = Vec::new(alloc);
    for (_, common) in entries {
        commons.push((names.in_namespace(common.ns), common.ty))?;
    }
    Ok(commons)
}

// These types, each beside what names mean where it is written.
fn uses_of<'n, 'f>(
    alloc: Global,
    names: &'n FragmentNames<'f>,
    lent: &[LentType<'n>],
) -> Result<Vec<(NamesIn<'n, 'f>, &'n Type<RawName>)>, AllocError>
    ensures names { IfOk result (λ uses. All (λ u. u.0.names.now ≡ names.now) uses.items) }
    ensures uses { IfOk result (λ uses. map lent_at uses.items ≡ map lent_type lent.now) }
{
    let mut uses = Vec::with_capacity(alloc, lent.len())?;
    for used in lent {
        uses.push((names.in_namespace(used.ns), used.ty))?;
    }
    Ok(uses)
}

// The error that names the common type of this rank.
fn common_cycle(
    alloc: Global,
    entries: &[(InternalName, LentType<'_>)],
    rank: usize,
) -> Result<Refusal, AllocError>
    requires { rank < length entries.now }
    ensures { IfOk result (NamesCycleAt entries.now rank) }
{
    let ty = entries[rank].0.clone_in(alloc)?;
    let error = CycleInCommonTypeReferencesError { ty };
    Refusal::new(alloc, SchemaError::CycleInCommonTypeReferences(error))
}

/// What a type stands for that is written in this namespace, where each of its parts can be expanded. It errs when
/// out of memory, or of the stack: where sets and records are nested more than `DEEPEST` deep.
pub fn expand_in(
    alloc: Global,
    names: &FragmentNames<'_>,
    done: &[Option<BuiltType>],
    ns: &Option<Name>,
    ty: &Type<RawName>,
) -> Result<BuiltType, AllocError>
    requires done { AreExpanded (fragment_scope names.now.fragment names.now.table) done.now }
    requires ready { IsTypeReady names.now.fragment names.now.table done.now ns.now ty.now }
    ensures { IfOk result (ExpandsTo (fragment_scope names.now.fragment names.now.table) (name_of ns.now) ty.now) }
{
    let expanded = expand_type(alloc, &names.in_namespace(ns), done, ty)?;
    if is_deeper(&expanded, DEEPEST) {
        return Err(AllocError);
    }
    Ok(expanded)
}
