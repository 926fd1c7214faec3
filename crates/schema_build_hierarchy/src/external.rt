ghost use Rattle.std.specs.Prelude.{◌≡◌, map, List, IfOk, OnOk, IfErr};
ghost use Rattle.cedar_identifiers.specs.Names.{components_of};
ghost use Rattle.schema_resolve_definitions.specs.Tests.{Tests};
ghost use Rattle.schema_build_checks.specs.Rows.{Never, OrMemory};
ghost use Rattle.schema_build_hierarchy.specs.Declarations.{DeclaredEntity, entity_name};
ghost use Rattle.schema_build_hierarchy.specs.Ancestors.{AreAncestorRows};
ghost use Rattle.schema_build_hierarchy.specs.Entries.{AreEntities, entity_of};
ghost use Rattle.schema_build_hierarchy.specs.Parents.{IsAncestor};
ghost use Rattle.schema_build_hierarchy.specs.Rows.{HasExternalUnderEnum, IsUnderEnum, is_enum};

use crate::entries::EntityEntry;
use cedar_data::CloneIn;
use cedar_identifiers::{InternalName, Name, RawName};
use schema_build_errors::{ExternalWithEnumAncestorError, Refusal, SchemaError};
use schema_build_graph::least_marked;
use schema_json::{EntityType, EntityTypeKind};
use std::alloc::{AllocError, Global};

/// Refuses entity types of which an external one has an enumerated ancestor, and names the least with the least of
/// these. The rows are the ancestors of each.
pub fn check_external_types<'f>(
    alloc: Global,
    entries: &[EntityEntry<'f>],
    ancestors: &[Vec<usize>],
) -> Result<(), Refusal>
    ghost g: { Tests × List DeclaredEntity }
    requires entries { AreEntities g.1 entries.now }
    requires ancestors { AreAncestorRows (IsAncestor g.0 g.1)
        (map (λ e. entity_name (entity_of e)) entries.now) ancestors.now }
    ensures ok { OnOk result (Never (HasExternalUnderEnum g.0 g.1)) }
    ensures err { IfErr result (OrMemory (HasExternalUnderEnum g.0 g.1)) }
{
    let marks = enum_marks(alloc, entries)?;
    for rank in 0..entries.len() {
        if entries[rank].ty.external {
            if let Some(above) = least_marked(&ancestors[rank], &marks) {
                return Err(external_under(alloc, &entries[rank].name, &entries[above].name)?);
            }
        }
    }
    Ok(())
}

// Of each entity type whether it is enumerated.
fn enum_marks<'f>(alloc: Global, entries: &[EntityEntry<'f>]) -> Result<Vec<bool>, AllocError>
    ensures { IfOk result (λ marks. marks.items ≡ map (λ e. is_enum e.ty.now.kind) entries.now) }
{
    let mut marks = Vec::with_capacity(alloc, entries.len())?;
    for entry in entries {
        marks.push(is_enum(entry.ty))?;
    }
    Ok(marks)
}

// Whether its entities are listed.
fn is_enum(ty: &EntityType<RawName>) -> bool
    ensures { result ≡ is_enum ty.now.kind }
{
    match &ty.kind {
        EntityTypeKind::Standard(_) => false,
        EntityTypeKind::Enum { .. } => true,
    }
}

// The error that names the external type, and the enumerated one without a place.
fn external_under(alloc: Global, external: &Name, above: &Name) -> Result<Refusal, AllocError>
    ensures { IfOk result (IsUnderEnum external.now.name (components_of above.now.name)) }
{
    let external_type = external.clone_in(alloc)?;
    let name = InternalName {
        first: above.name.first.clone_in(alloc)?,
        others: above.name.others.clone_in(alloc)?,
        loc: None,
    };
    let enum_type = Name { name };
    let error = ExternalWithEnumAncestorError {
        external_type,
        enum_type,
    };
    Refusal::new(alloc, SchemaError::ExternalWithEnumAncestor(error))
}
