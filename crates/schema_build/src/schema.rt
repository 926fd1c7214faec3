ghost use Rattle.std.specs.Prelude.{◌≡◌, ◌↔◌, true, ◌+◌, ◌-◌, ◌*◌, ◌^◌, ◌≤◌, length, [], IfOk, IfErr, OnOk};
ghost use Rattle.std.specs.BTreeMap.{is_at};
ghost use Rattle.std.specs.List.Sorted.{IsStrictlySortedBy};
ghost use Rattle.std.specs.Map.{lookup, keys_of};
ghost use Rattle.std.specs.Option.{option_copied};
ghost use Rattle.std.specs.Str.{encode_utf8_all};
ghost use Rattle.cedar_names.specs.CanonicalText.{canonical_text};
ghost use Rattle.cedar_names.specs.Meaning.{SchemaMeaning};
ghost use Rattle.cedar_names.specs.Orders.{names_in_order, uids_in_order};
ghost use Rattle.schema_build_checks.specs.Rows.{Never, OrMemory};
ghost use Rattle.schema_build_parts.specs.BuildFaults.{BuildFault};
ghost use Rattle.schema_build_text.specs.Captured.{IsUncaptured, IsTextRefusal};
ghost use Rattle.schema_build_types.specs.Content.{content};
ghost use Rattle.schema_build_types.specs.Lacks.{schema_lacks};
ghost use Rattle.schema_build_recovered.specs.Recovered.{IsRecoveredFragment};
ghost use Rattle.schema_build_recovered_types.specs.FirstLacks.{IsFirstLack};
ghost use Rattle.schema_build_recovered.specs.Refusals.{NamesLacksFirst};
ghost use Rattle.schema_build_unfit.specs.Parts.{IsMisnamed, IsEnumBelow, NoneIs};
ghost use Rattle.schema_build.specs.PartsFault.{PartsFault};
ghost use Rattle.schema_build.specs.Schemas.{StandsFor, Builds};

use crate::assembly::{action_entries, actions, entity_type_entries, entity_types};
use cedar_data::{CloneIn, Map, Text};
use cedar_identifiers::{Name, RawName};
use cedar_names::{EntityUID, ExtensionTable, Steps};
use schema_build_equal::same_content;
use schema_build_errors::{
    EnumEntityInHierarchyError, InvalidActionTypeError, RecoveryError, SchemaError, ToTextError,
};
use schema_build_parts::{FragmentParts, fragment_parts};
use schema_build_recovered::{recovered_fragment, whole_schema_text};
use schema_build_scope::laws::common_types_are_declared_once;
use schema_build_types::{
    ActionEntry, EntityTypeEntry, ValidatorActionId, ValidatorEntityType, get_counted,
};
use schema_build_unfit::parts::{first_enum_below, first_misnamed};
use schema_json::Fragment;
use std::alloc::Global;
use std::marker::Model;
use std::sync::ledger::Ledger;

/// A built schema: its entity types in the order of their names, and its actions in the order of their types and ids,
/// each once.
pub struct ValidatorSchema {
    entity_types: Vec<EntityTypeEntry>,
    actions: Vec<ActionEntry>,
}

impl Drop for ValidatorSchema {
    fn drop(self) {
        let ValidatorSchema {
            entity_types: _entity_types,
            actions: _actions,
        } = self;
    }
}

impl Model for ValidatorSchema {
    ghost use Rattle.std.specs.Coded.{codes};
    ghost use Rattle.std.specs.List.Sorted.{IsStrictlySortedBy};
    ghost use Rattle.std.specs.Map.{keys_of};
    ghost use Rattle.schema_build_types.specs.contracts.types.Type as built;
    ghost use Rattle.cedar_names.specs.Orders.{names_in_order, uids_in_order};
    ghost use Rattle.schema_build.specs.Schemas.{SchemaLists};

    ghost Value = { SchemaLists };

    ghost coded = { Prim.hlevel (codes, built.the_row.coded) };

    ghost view = { λ s. record { entity_types = s.entity_types.items; actions = s.actions.items } };

    ghost invariant = { λ s. IsStrictlySortedBy (λ a b. names_in_order a.name b.name) (keys_of s.entity_types.items)
        × IsStrictlySortedBy uids_in_order (keys_of s.actions.items) };
}

impl ValidatorSchema {
    /// The schema without entity types and actions. It takes no memory.
    pub fn empty(alloc: Global) -> ValidatorSchema
        ensures { result ≡ record { entity_types = []; actions = [] } }
    {
        ValidatorSchema {
            entity_types: Vec::new(alloc),
            actions: Vec::new(alloc),
        }
    }

    /// The schema of a fragment under a table of extension types: it stands for what the fragment means. A fragment
    /// with a fault is refused by the first that holds, in the order of the causes of `SchemaError`.
    pub fn from_schema_frag(
        alloc: Global,
        fragment: Fragment<RawName>,
        table: &ExtensionTable,
    ) -> Result<ValidatorSchema, SchemaError>
        ensures built { IfOk result (Builds fragment table.now) }
        ensures faultless { OnOk result (Never (BuildFault fragment table.now)) }
        ensures fault { IfErr result (OrMemory (BuildFault fragment table.now)) }
    {
        common_types_are_declared_once(&fragment, table);
        let FragmentParts {
            entities,
            actions: declared,
            kinds,
            applied,
            above,
            above_actions,
        } = fragment_parts(alloc, &fragment, table)?;
        let entity_types = entity_types(alloc, entities, &above, kinds)?;
        let actions = actions(alloc, declared, &above_actions, applied)?;
        Ok(ValidatorSchema {
            entity_types,
            actions,
        })
    }

    /// The schema of these entity types and actions, as they stand. Refused are an action whose type has another
    /// basename than `Action`, the least of them as `InvalidActionType`, and else an enumerated entity type with
    /// ancestors, the least of them and its least ancestor as `EnumEntityInHierarchy`.
    pub fn from_parts(
        alloc: Global,
        entity_types: Map<Name, ValidatorEntityType>,
        actions: Map<EntityUID, ValidatorActionId>,
    ) -> Result<ValidatorSchema, SchemaError>
        ensures parts { IfOk result (λ s. s ≡ record { entity_types = entity_types; actions = actions }) }
        ensures lawful { OnOk result (NoneIs IsMisnamed actions × NoneIs (λ e. IsEnumBelow e.1) entity_types) }
        ensures fault { IfErr result (OrMemory (PartsFault entity_types actions)) }
    {
        if let Some(uid) = first_misnamed(actions.as_slice()) {
            let uid = uid.clone_in(alloc)?;
            return Err(SchemaError::InvalidActionType(InvalidActionTypeError { uid }));
        }
        if let Some((child, parent)) = first_enum_below(entity_types.as_slice()) {
            let enum_type = child.clone_in(alloc)?;
            let parent_type = parent.clone_in(alloc)?;
            let error = EnumEntityInHierarchyError {
                enum_type,
                parent_type,
            };
            return Err(SchemaError::EnumEntityInHierarchy(error));
        }
        Ok(ValidatorSchema {
            entity_types: entity_type_entries(alloc, entity_types)?,
            actions: action_entries(alloc, actions)?,
        })
    }

    /// The entity types, in the order of their names.
    pub fn entity_types(&self) -> &[EntityTypeEntry]
        ensures entries { result.now ≡ self.now.entity_types }
        ensures sorted { IsStrictlySortedBy (λ a b. names_in_order a.name b.name) (keys_of result.now) }
    {
        &self.entity_types
    }

    /// The actions, in the order of their types and ids.
    pub fn actions(&self) -> &[ActionEntry]
        ensures entries { result.now ≡ self.now.actions }
        ensures sorted { IsStrictlySortedBy uids_in_order (keys_of result.now) }
    {
        &self.actions
    }

    /// The entity type of this name. A step is one comparison with a name.
    pub fn entity_type<L: Ledger>(
        &self,
        name: &Name,
        steps: &mut Steps<L>,
    ) -> Option<&ValidatorEntityType>
        ensures value { option_copied result
            ≡ lookup (is_at (λ n. names_in_order name.now.name n.name)) self.now.entity_types }
        ensures counted { steps.old ≤ steps.new }
        ensures cost { 2 ^ (steps.new - steps.old) ≤ 2 * length self.now.entity_types + 1 }
    {
        get_counted(self.entity_types.as_slice(), name, steps)
    }

    /// The action of this type and id. A step is one comparison with an action.
    pub fn action<L: Ledger>(
        &self,
        uid: &EntityUID,
        steps: &mut Steps<L>,
    ) -> Option<&ValidatorActionId>
        ensures value { option_copied result ≡ lookup (is_at (uids_in_order uid.now)) self.now.actions }
        ensures counted { steps.old ≤ steps.new }
        ensures cost { 2 ^ (steps.new - steps.old) ≤ 2 * length self.now.actions + 1 }
    {
        get_counted(self.actions.as_slice(), uid, steps)
    }

    /// Whether the two schemas say the same, wherever their names were written. It takes no memory.
    pub fn meaning_eq(a: &ValidatorSchema, b: &ValidatorSchema) -> bool
        ensures same { result ≡ true ↔ content a.now.entity_types a.now.actions
            ≡ content b.now.entity_types b.now.actions }
    {
        same_content(&a.entity_types, &a.actions, &b.entity_types, &b.actions)
    }

    /// The fragment that is recovered of what the schema stands for: without common types, annotations and places.
    /// Refused is what no text says, by the first of it: namespace by namespace, entity types before actions, and an
    /// outer type before the types inside it.
    pub fn to_json_schema(&self, alloc: Global) -> Result<Fragment<RawName>, RecoveryError>
        ensures recovered { IfOk result (λ f. (m : SchemaMeaning) → StandsFor self.now m → IsRecoveredFragment m f) }
        ensures whole { OnOk result (schema_lacks (content self.now.entity_types self.now.actions) ≡ []) }
        ensures lack { IfErr result (IsFirstLack (schema_lacks (content self.now.entity_types self.now.actions))) }
    {
        recovered_fragment(alloc, &self.entity_types, &self.actions)
    }

    /// The canonical text of what the schema stands for. `Recovery` where the schema holds what no text says, by the
    /// first of it, as `to_json_schema` tells it; else `Captured` where an item has a type that would be read otherwise
    /// in its namespace, about the first of them.
    pub fn to_cedar_schema(&self, alloc: Global) -> Result<Text, ToTextError>
        ensures text { IfOk result (λ text. (m : SchemaMeaning) → StandsFor self.now m
            → encode_utf8_all text ≡ canonical_text m) }
        ensures whole { OnOk result (schema_lacks (content self.now.entity_types self.now.actions) ≡ []) }
        ensures uncaptured { OnOk result ((m : SchemaMeaning) → StandsFor self.now m → IsUncaptured m) }
        ensures lacks { IfErr result (NamesLacksFirst (schema_lacks (content self.now.entity_types self.now.actions))) }
        ensures refusal { IfErr result (λ e. (m : SchemaMeaning) → StandsFor self.now m → IsTextRefusal m e) }
    {
        whole_schema_text(alloc, &self.entity_types, &self.actions)
    }
}
