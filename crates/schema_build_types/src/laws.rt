ghost use Rattle.std.specs.Prelude.{◌≡◌};
ghost use Rattle.cedar_names.specs.Meaning.{PlainType};
ghost use Rattle.schema_build_types.specs.Content.{type_content};
ghost use Rattle.schema_build_types.specs.Standing.{IsBuilt, as_built};
ghost use Rattle.schema_build_types.specs.declared.types.Type.{«Type» as Built};

/// The type that is built for a plain type says what the plain type says.
pub fn built_types_say_the_same()
    ensures { (plain : PlainType) (built : Built) → IsBuilt plain built → type_content built ≡ as_built plain }
{}
