//! Laws of fragments that say what is written of a meaning. Each law is what its function ensures.
ghost use Rattle.std.specs.Prelude.{◌≡◌, ◌↔◌, ℕ, Bool, List, [], Option};
ghost use Rattle.cedar_identifiers.specs.declared.internal_name.InternalName.{InternalName};
ghost use Rattle.cedar_identifiers.specs.declared.raw_name.RawName.{RawName};
ghost use Rattle.cedar_identifiers.specs.declared.name.Name.{Name};
ghost use Rattle.cedar_names.specs.Meaning.{PlainType, EntityMeaning, ActionMeaning, SchemaMeaning};
ghost use Rattle.schema_json.specs.declared.types.Type.{«Type»};
ghost use Rattle.schema_json.specs.declared.entity_type.EntityTypeKind.{EntityTypeKind};
ghost use Rattle.schema_json.specs.declared.action_type.ApplySpec.{ApplySpec};
ghost use Rattle.schema_json.specs.declared.action_type.ActionEntityUID.{ActionEntityUID};
ghost use Rattle.laws_written.specs.Meant.{type_of_meaning, entity_as, action_as, groups_of_meaning};
ghost use Rattle.schema_resolve_definitions.specs.Tests.{Tests};
ghost use Rattle.schema_build_hierarchy.specs.Declarations.{Declared, DeclaredEntity};
ghost use Rattle.schema_build_hierarchy.specs.Parents.{written_parents, parents_in, action_parents_in, IsParent};
ghost use Rattle.schema_build_hierarchy.specs.Parents.{IsAncestor, IsActionParent, IsActionAncestor};
ghost use Rattle.schema_build_checks.specs.DeclaredAt.{ActionAt};
ghost use Rattle.cedar_names.specs.declared.extension_table.ExtensionTable.{ExtensionTable};
ghost use Rattle.schema_build_checks.specs.Rows.{Never};
ghost use Rattle.schema_build_parts.specs.BuildFaults.{BuildFault};
ghost use Rattle.schema_build.specs.Meaning.{kind_meaning, apply_meaning, FragmentMeaning};
ghost use Rattle.schema_build_expand.specs.Scope.{Scope};
ghost use Rattle.schema_build_expand.specs.Expands.{Expands};
ghost use Rattle.schema_build_items.specs.ActionKinds.{IsApplyMeaning};
ghost use Rattle.schema_build_items.specs.Kinds.{IsKindMeaning};
ghost use Rattle.laws_translate.specs.DeclarationsSay.{KindSays, AppliesSay};
ghost use Rattle.laws_translate.specs.TypesSay.{TypeSays};
ghost use Rattle.std.specs.List.{AllByRecursion, flat_map};
ghost use Rattle.std.specs.Option.{option_map_or};
ghost use Rattle.schema_json.specs.declared.action_type.ActionType.{ActionType};
ghost use Rattle.schema_json.specs.declared.fragment.Fragment.{Fragment};
ghost use Rattle.schema_json.specs.AsWritten.{as_written};
ghost use Rattle.laws_written.specs.PrintedDecls.{group_items};
ghost use Rattle.laws_translate.specs.FragmentsSay.{FragmentSays};
ghost use Rattle.laws_translate.specs.MeantNames.{HasOpenNames};
ghost use Rattle.laws_build.specs.Said.DeclaredEntries.{DeclaresJust};
ghost use Rattle.laws_build.specs.Closure.Closed.{IsTransitive, IsClosed};
ghost use Rattle.laws_build.specs.Closure.Kinds.{HasItsParts};
ghost use Rattle.laws_build.specs.Closure.Ordered.{IsOrderedType};
ghost use Rattle.laws_build.specs.Said.Entries.{IsFoundAs, EntityMeansItself, ActionMeansItself};
ghost use Rattle.laws_build.specs.Said.Ancestors.{IsActionFoundAs};
ghost use Rattle.laws_build.specs.Said.Themselves.{MeansItself};

use cedar_identifiers::RawName as RawNameOfCode;
use laws_translate::laws::namespaces_of_meanings_are_written;
use schema_build_expand::laws::types_stand_for_one;

/// A type that says what is written of a type of a meaning stands for it, where each name in that means itself and the
/// attributes of each record rise by their names.
pub fn types_said_of_meanings_expand()
    ensures { (s : Scope RawName) (ns : Option InternalName) (t : «Type» RawName) (p : PlainType)
        → TypeSays t (type_of_meaning p) → IsOrderedType p → MeansItself s ns p → Expands RawName s ns t p }
{}

/// What stands for an entity type and says what is written of its entry means the entry, where that means itself.
pub fn kinds_said_of_meanings_mean_them()
    ensures { (s : Scope RawName) (ns : Option InternalName) (external : Bool)
        (kind : EntityTypeKind RawName) (e : EntityMeaning)
        → KindSays external kind (entity_as e.is_external e.choices e) → EntityMeansItself s ns e
        → (external ≡ e.is_external) × IsKindMeaning s ns kind (kind_meaning e) }
{}

/// What an action applies to, where it says what is written of the action's entry, means the entry, where that means
/// itself.
pub fn actions_said_of_meanings_mean_them()
    ensures { (t : Tests) (s : Scope RawName) (ns : Option Name) (external : Bool)
        (applies : Option (ApplySpec RawName))
        (parents : Option (List (ActionEntityUID RawName as_written))) (a : ActionMeaning)
        → AppliesSay external applies parents (action_as a.is_external a) → ActionMeansItself t s ns a
        → (external ≡ a.is_external) × IsApplyMeaning t s ns applies (apply_meaning a) }
{}

/// Parents that say what is written of an entry of a meaning are the entry's ancestors, where each of these is found as
/// itself; an entity type is to have only what its kind has.
pub fn parents_said_of_meanings_are_ancestors()
    ensures entities { (t : Tests) (ns : Option Name) (external : Bool) (kind : EntityTypeKind RawName)
        (e : EntityMeaning)
        → KindSays external kind (entity_as e.is_external e.choices e) → HasItsParts e.is_external e.choices e
        → AllByRecursion (IsFoundAs t ns) e.ancestors → parents_in t ns (written_parents kind) ≡ e.ancestors }
    ensures actions { (t : Tests) (ns : Option Name) (external : Bool) (applies : Option (ApplySpec RawName))
        (parents : Option (List (ActionEntityUID RawName as_written))) (a : ActionMeaning)
        → AppliesSay external applies parents (action_as a.is_external a)
        → AllByRecursion (IsActionFoundAs t ns) a.ancestors
        → action_parents_in t ns (option_map_or (λ uids. uids) parents []) ≡ a.ancestors }
{}

/// Where the parents of parents are parents, the ancestors are the parents.
pub fn parents_of_closed_meanings_are_ancestors()
    ensures entities { (t : Tests) (declared : List DeclaredEntity) → IsTransitive (IsParent t declared)
        → (a b : List (List ℕ)) → IsAncestor t declared a b ↔ IsParent t declared a b }
    ensures actions { (t : Tests) (declared : List (Declared ActionAt (ActionType RawName as_written)))
        → IsTransitive (IsActionParent t declared)
        → (a b : List (List ℕ) × List ℕ) → IsActionAncestor t declared a b ↔ IsActionParent t declared a b }
{}

/// A fragment that says what is written of a meaning whose names may be declared declares just the entity types and the
/// actions of the meaning.
pub fn what_says_a_meaning_declares_it()
    ensures { (g : Fragment RawName as_written) (m : SchemaMeaning)
        → FragmentSays g (flat_map group_items (groups_of_meaning m)) → HasOpenNames m → DeclaresJust m g }
{
    namespaces_of_meanings_are_written();
}

/// What declares just the entity types and the actions of a closed meaning means it, and has no build fault.
pub fn what_declares_a_closed_meaning_means_it()
    ensures means { (g : Fragment RawName as_written) (table : ExtensionTable) (m : SchemaMeaning)
        → DeclaresJust m g → IsClosed table m → FragmentMeaning g table m }
    ensures faultless { (g : Fragment RawName as_written) (table : ExtensionTable) (m : SchemaMeaning)
        → DeclaresJust m g → IsClosed table m → Never (BuildFault g table) }
{
    types_stand_for_one::<RawNameOfCode>();
}

/// A fragment that says what is written of a closed meaning means it, and has no build fault.
pub fn what_says_a_closed_meaning_means_it()
    ensures means { (g : Fragment RawName as_written) (table : ExtensionTable) (m : SchemaMeaning)
        → FragmentSays g (flat_map group_items (groups_of_meaning m)) → IsClosed table m → FragmentMeaning g table m }
    ensures faultless { (g : Fragment RawName as_written) (table : ExtensionTable) (m : SchemaMeaning)
        → FragmentSays g (flat_map group_items (groups_of_meaning m)) → IsClosed table m
        → Never (BuildFault g table) }
{
    what_says_a_meaning_declares_it();
    what_declares_a_closed_meaning_means_it();
}
