ghost use Rattle.std.specs.Prelude.{◌≡◌, Option, IfOk, IfErr, OnOk, ⊤};
ghost use Rattle.cedar_identifiers.specs.declared.conditional_name.ConditionalName.{ConditionalName};
ghost use Rattle.schema_json_walk.specs.Visits.{part_of};
ghost use Rattle.schema_resolve_definitions.specs.Declarations.{name_of};
ghost use Rattle.schema_resolve_definitions.specs.Defined.{defined};
ghost use Rattle.schema_resolve_definitions.specs.Tests.{tests_of};
ghost use Rattle.schema_resolve_targets.specs.ReferenceParts.{by_reference};
ghost use Rattle.schema_resolve_targets.specs.Untargeted.{untargeted_in, undefined};
ghost use Rattle.schema_resolve_targets.specs.Undefined.{types_among, actions_among};
ghost use Rattle.schema_resolve_targets.specs.Gathered.{uids, Gathers};

use crate::action_types::written;
use crate::tried::{find_action, find_type};
use cedar_data::{CloneIn, Text};
use cedar_identifiers::{ConditionalName, Name, RawName, ReferenceType};
use cedar_names::ExtensionTable;
use schema_json::{ActionEntityUID, Fragment};
use schema_json_walk::{LentPart, Visitor, walk_fragment};
use schema_resolve_definitions::declared::name_of;
use schema_resolve_lookup::FragmentDefs;
use std::alloc::{AllocError, Global};

/// References of a fragment that mean nothing, in the order of the walk.
#[derive(Drop)]
pub struct UndefinedReferences {
    /// Those to types.
    pub types: Vec<ConditionalName>,
    /// Those to actions.
    pub actions: Vec<ActionEntityUID<ConditionalName>>,
}

/// Each reference of the fragment that means nothing, where it is known what is defined.
pub fn gather_undefined(
    alloc: Global,
    fragment: &Fragment<RawName>,
    all_defs: &FragmentDefs<'_>,
) -> Result<UndefinedReferences, AllocError>
    ensures types { IfOk result (λ found. found.types.items
        ≡ types_among (undefined (tests_of all_defs.now) fragment.now)) }
    ensures actions { IfOk result (λ found. uids found.actions.items
        ≡ actions_among (undefined (tests_of all_defs.now) fragment.now)) }
{
    let mut gatherer = Gatherer {
        alloc,
        defs: all_defs,
        types: Vec::new(alloc),
        actions: Vec::new(alloc),
    };
    walk_fragment(&mut gatherer, fragment)?;
    let Gatherer { types, actions, .. } = gatherer;
    Ok(UndefinedReferences { types, actions })
}

/// Each reference of the fragment that means nothing, where the fragment stands alone under this table.
pub fn gather_undefined_alone(
    alloc: Global,
    fragment: &Fragment<RawName>,
    table: &ExtensionTable,
) -> Result<UndefinedReferences, AllocError>
    ensures types { IfOk result (λ found. found.types.items
        ≡ types_among (undefined (tests_of (defined fragment.now table.now)) fragment.now)) }
    ensures actions { IfOk result (λ found. uids found.actions.items
        ≡ actions_among (undefined (tests_of (defined fragment.now table.now)) fragment.now)) }
{
    let defs = FragmentDefs::new(alloc, fragment, table)?;
    gather_undefined(alloc, fragment, &defs)
}

// The references met so far that mean nothing.
#[derive(Drop)]
struct Gatherer<'d, 'f> {
    alloc: Global,
    defs: &'d FragmentDefs<'f>,
    types: Vec<ConditionalName>,
    actions: Vec<ActionEntityUID<ConditionalName>>,
}

impl<'d, 'f> Visitor<RawName> for Gatherer<'d, 'f> {
    type Refusal = AllocError;

    ghost takes = { λ ns before part after. Gathers
        (by_reference (untargeted_in (tests_of before.defs.now) (name_of ns)) part) before after };

    ghost refuses = { λ _ _ _ _. ⊤ };

    fn visit(&mut self, ns: &Option<Name>, part: LentPart<'_, RawName>) -> Result<(), AllocError>
        ensures taken { OnOk result (Gathers (by_reference (untargeted_in (tests_of self.old.defs.now) (name_of ns.now))
            (part_of part.entry)) self.old self.new) }
        ensures refused { IfErr result (λ _. ⊤) }
    {
        match part {
            LentPart::TypeReference { kind, name } => self.meet_type(ns, kind, name),
            LentPart::ContextReference { name } => {
                self.meet_type(ns, ReferenceType::Common, name)
            }
            LentPart::Parent { name } => self.meet_type(ns, ReferenceType::Entity, name),
            LentPart::Principal { name } => self.meet_type(ns, ReferenceType::Entity, name),
            LentPart::Resource { name } => self.meet_type(ns, ReferenceType::Entity, name),
            LentPart::ActionParent { id, ty } => self.meet_action(ns, id, ty),
            LentPart::ExtensionType { .. }
            | LentPart::OpenRecord
            | LentPart::ActionAttributes { .. }
            | LentPart::ExternalNotBare => Ok(()),
        }
    }
}

impl<'d, 'f> Gatherer<'d, 'f> {
    // Keeps the name, where it means nothing.
    fn meet_type(
        &mut self,
        ns: &Option<Name>,
        kind: ReferenceType,
        name: &RawName,
    ) -> Result<(), AllocError>
        ensures { OnOk result (Gathers ((untargeted_in (tests_of self.old.defs.now) (name_of ns.now)).types kind
            name.now) self.old self.new) }
    {
        let ns = name_of(ns);
        if find_type(self.defs, ns, kind, &name.name).is_none() {
            let name = name.clone_in(self.alloc)?;
            let undefined = name.conditionally_qualify_with(self.alloc, ns, kind)?;
            self.types.push(undefined)?;
        }
        Ok(())
    }

    // Keeps the reference to an action, where it means nothing.
    fn meet_action(
        &mut self,
        ns: &Option<Name>,
        id: &Text,
        ty: &Option<RawName>,
    ) -> Result<(), AllocError>
        ensures { OnOk result (Gathers ((untargeted_in (tests_of self.old.defs.now) (name_of ns.now)).actions id.now
            ty.now) self.old self.new) }
    {
        let ns = name_of(ns);
        let ty = written(self.alloc, ty)?;
        if find_action(self.defs, ns, id, &ty.name).is_none() {
            let ty = ty.conditionally_qualify_with(self.alloc, ns, ReferenceType::Entity)?;
            let id = id.clone_in(self.alloc)?;
            self.actions.push(ActionEntityUID::with_type(ty, id))?;
        }
        Ok(())
    }
}
