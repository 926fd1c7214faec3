ghost use Rattle.std.specs.Prelude.{◌≡◌, codes, IfOk, OnOk, IfErr, ⊤};
ghost use Rattle.std.specs.Str.{bytes_eq};
ghost use Rattle.cedar_identifiers.specs.Names.{components_of};
ghost use Rattle.cedar_names.specs.CanonicalText.{basename};
ghost use Rattle.cedar_names.specs.declared.extension_table.ExtensionTable.{ExtensionTable as TableTold};
ghost use Rattle.schema_json_walk.specs.Visits.{part_of};
ghost use Rattle.schema_resolve_definitions.specs.Defined.{defined};
ghost use Rattle.schema_resolve_definitions.specs.Tests.{tests_of};
ghost use Rattle.schema_build_checks.specs.Rows.{Never, OrMemory};
ghost use Rattle.schema_build_hierarchy.specs.Ancestors.{AreParentsDeclared};
ghost use Rattle.schema_build_hierarchy.specs.Declarations.{entity_name, declared_entities};
ghost use Rattle.schema_build_hierarchy.specs.Finding.{Finds};
ghost use Rattle.schema_build_hierarchy.specs.Parents.{entity_parents};
ghost use Rattle.schema_build_hierarchy.specs.Rows.{HasUndeclaredEntityTypes, undeclared_part, undeclared_target};
ghost use Rattle.schema_build_hierarchy.specs.Rows.{undeclared_uses};

use crate::firsts::{first_uses, unreserved};
use crate::parents::entity_target;
use crate::use_finder::UseFinder;
use cedar_data::{NonEmpty, same_bytes};
use cedar_identifiers::{InternalName, Name, RawName};
use schema_build_errors::{Refusal, SchemaError, UndeclaredEntityTypesError};
use schema_json::Fragment;
use schema_json_walk::laws::fragment_gives_what_its_parts_give;
use schema_json_walk::{LentPart, Visitor, walk_fragment};
use schema_resolve_lookup::{DeclaredDefs, FragmentDefs};
use std::alloc::{AllocError, Global};

/// Refuses a fragment in which a parent of an entity type, a principal or a resource means an entity type that is not
/// declared, as the type of actions is not. It names each such type once, in order, at the place of its first use.
/// Where it passes, every parent of an entity type is declared.
pub fn check_declared_types(
    alloc: Global,
    fragment: &Fragment<RawName>,
    defs: &FragmentDefs<'_>,
) -> Result<(), Refusal>
    ghost table: { TableTold }
    requires { tests_of defs.now ≡ tests_of (defined fragment.now table) }
    ensures ok { OnOk result (Never (HasUndeclaredEntityTypes (tests_of defs.now) fragment.now)) }
    ensures declared { OnOk result (AreParentsDeclared entity_name (entity_parents (tests_of defs.now))
        (declared_entities fragment.now)) }
    ensures err { IfErr result (OrMemory (HasUndeclaredEntityTypes (tests_of defs.now) fragment.now)) }
{
    let uses = undeclared_uses(alloc, fragment, defs)?;
    let firsts = unreserved(alloc, first_uses(uses)?)?;
    match NonEmpty::from_vec(firsts) {
        Some(types) => {
            let error = UndeclaredEntityTypesError { types };
            Err(Refusal::new(alloc, SchemaError::UndeclaredEntityTypes(error))?)
        }
        None => Ok(()),
    }
}

// The uses of entity types that are not declared, in the order of the walk.
fn undeclared_uses(
    alloc: Global,
    fragment: &Fragment<RawName>,
    defs: &FragmentDefs<'_>,
) -> Result<Vec<InternalName>, AllocError>
    ghost table: { TableTold }
    requires { tests_of defs.now ≡ tests_of (defined fragment.now table) }
    ensures { IfOk result (λ uses. uses.items ≡ undeclared_uses (tests_of defs.now) fragment.now) }
{
    let own = DeclaredDefs::new(fragment);
    let mut finder = UseFinder {
        alloc,
        defs,
        own,
        uses: Vec::new(alloc),
    };
    fragment_gives_what_its_parts_give::<RawName, InternalName>(fragment);
    walk_fragment(&mut finder, fragment)?;
    Ok(finder.uses)
}

// Whether the last word of the name is `Action`.
fn is_named_action(name: &InternalName) -> bool
    ensures { result ≡ bytes_eq (basename (components_of name.now)) (codes "Action") }
{
    match name.others.as_slice().split_last() {
        Some((last, _)) => same_bytes(last.as_str(), "Action"),
        None => same_bytes(name.first.as_str(), "Action"),
    }
}

impl<'d, 'f, 'g> Visitor<RawName> for UseFinder<'d, 'f, 'g> {
    type Refusal = AllocError;

    ghost takes = { λ ns before part after.
        Finds (undeclared_part (tests_of before.defs.now) (tests_of before.own) ns part) before after };

    ghost refuses = { λ _ _ _ _. ⊤ };

    fn visit(&mut self, ns: &Option<Name>, part: LentPart<'_, RawName>) -> Result<(), AllocError>
        ensures taken { OnOk result (Finds (undeclared_part (tests_of self.old.defs.now) (tests_of self.old.own) ns.now
            (part_of part.entry)) self.old self.new) }
        ensures refused { IfErr result (λ _. ⊤) }
    {
        match part {
            LentPart::Parent { name } => self.meet(ns, name),
            LentPart::Principal { name } => self.meet(ns, name),
            LentPart::Resource { name } => self.meet(ns, name),
            _ => Ok(()),
        }
    }
}

impl<'d, 'f, 'g> UseFinder<'d, 'f, 'g> {
    // Keeps what the name means as an entity type, where that is not declared: only types of actions are defined so, so
    // no other name is looked up.
    fn meet(&mut self, ns: &Option<Name>, name: &RawName) -> Result<(), AllocError>
        ensures { OnOk result (Finds (undeclared_target (tests_of self.old.defs.now)
            (tests_of self.old.own) ns.now name.now) self.old self.new) }
    {
        if !is_named_action(&name.name) {
            return Ok(());
        }
        if let Some(target) = entity_target(self.alloc, self.defs, ns, name)? {
            if !self.own.is_defined_as_entity(&target) {
                self.uses.push(target)?;
            }
        }
        Ok(())
    }
}
