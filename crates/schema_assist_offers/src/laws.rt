// What follows from the definitions.

ghost use Rattle.std.specs.Prelude.{◌≡◌, ◌↔◌, ℕ, List, [], false, Option, find};
ghost use Rattle.std.specs.List.{list_all};
ghost use Rattle.std.specs.Option.{option_map};
ghost use Rattle.cedar_identifiers.specs.Names.{components_of};
ghost use Rattle.cedar_identifiers.specs.Words.{is_id};
ghost use Rattle.cedar_identifiers.specs.declared.internal_name.InternalName.{InternalName};
ghost use Rattle.cedar_identifiers.specs.declared.raw_name.RawName.{RawName};
ghost use Rattle.cedar_identifiers.specs.declared.reference_type.ReferenceType.{ReferenceType};
ghost use Rattle.cedar_names.specs.declared.extension_table.ExtensionTable.{ExtensionTable};
ghost use Rattle.schema_resolve_definitions.specs.Tests.{Tests};
ghost use Rattle.schema_resolve_targets.specs.Qualified.{in_namespace};
ghost use Rattle.schema_resolve_targets.specs.Targets.{is_defined, target};
ghost use Rattle.schema_assist_places.specs.declared.role.Role.{Role};
ghost use Rattle.schema_assist_offers.specs.Offers.{Known, candidates_in, offers};
ghost use Rattle.schema_assist_offers.specs.Spellings.{words_in};

/// What words mean in a namespace is what a reference of these words means there.
pub fn meant_as_references_are()
    ensures { (t : Tests) (kind : ReferenceType) (ns : Option InternalName) (name : RawName)
        → option_map components_of (target t (in_namespace ns kind name))
        ≡ find (is_defined t kind) (candidates_in (words_in ns) (components_of name.name)) }
{}

/// In a namespace of which a word is no name, nothing is declared: there the names are offered as in the empty one.
pub fn offered_in_no_namespace()
    ensures { (f : Known) (table : ExtensionTable) (role : Role) (words : List (List ℕ)) (s : List ℕ)
        → list_all is_id words ≡ false → (offers f table role words s ↔ offers f table role [] s) }
{}
