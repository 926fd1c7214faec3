//! Laws of built schemas and their texts. Each law is what its function ensures; the functions do nothing.
ghost use Rattle.std.specs.Prelude.{◌≡◌, ◌∷◌, ℕ, List, [], false};
ghost use Rattle.cedar_names.specs.Meaning.{SchemaMeaning};
ghost use Rattle.schema_build_types.specs.Standing.{schema_as_built};
ghost use Rattle.schema_build_text.specs.Captured.{has_action, captured_in, IsUncaptured};
ghost use Rattle.schema_build_text.specs.Readings.{schema_reading};
ghost use Rattle.schema_build_types.specs.Content.{SchemaContent};

/// What is printed for the schema that is built for a meaning is this meaning.
pub fn meanings_are_read_back()
    ensures { (m : SchemaMeaning) → schema_reading (schema_as_built m) ≡ m }
{}

/// Nothing of the empty namespace is captured, nor of one without actions; and nothing of a meaning without actions in
/// named namespaces.
pub fn captured_items_are_beside_named_actions()
    ensures empty { (c : SchemaContent) → captured_in c [] ≡ [] }
    ensures alone { (c : SchemaContent) (n : List (List ℕ)) → has_action c n ≡ false → captured_in c n ≡ [] }
    ensures all { (m : SchemaMeaning) → ((n : List ℕ) (ns : List (List ℕ)) → has_action (schema_as_built m) (n ∷ ns)
        ≡ false) → IsUncaptured m }
{}
