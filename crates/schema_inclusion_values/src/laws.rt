//! Laws of which values meanings admit. Each law is what its function ensures.
ghost use Rattle.std.specs.Prelude.{Bool, List, Option};
ghost use Rattle.cedar_names.specs.Meaning.{PlainType, SchemaMeaning};
ghost use Rattle.schema_inclusion_values.specs.Ids.{Fits, some_id, unused, IsLeastUnused, lost_of, IsLostId};
ghost use Rattle.schema_inclusion_values.specs.Settled.{IsSettled, IsOrdered, IsKnown};
ghost use Rattle.schema_inclusion_values.specs.Admits.{IsInclusion};
ghost use Rattle.schema_inclusion_values.specs.Lost.{lost};
ghost use Rattle.schema_inclusion_values.specs.Values.{Text, Name, Has};
ghost use Rattle.schema_inclusion_values.specs.Checks.{some_value};
ghost use Rattle.schema_inclusion_values.specs.Formed.{Told, TellsLost, Distinct, Formed, IsExact};

/// Every type of a schema has a value, where each of its entity types has an id.
pub fn types_have_values()
    ensures { (fits : Name → Text → Bool) (id_of : Name → Text) (t : PlainType) → Formed (Told fits) id_of t
        → Has (Told fits) t (some_value id_of t) }
{}

/// The check by cases finds a value of the old type that is none of the new type, or there is none.
pub fn the_check_is_exact()
    ensures { (old new : Name → Text → Bool) (id_of : Name → Text) (lost : Name → Option Text)
        → TellsLost old new lost → (t u : PlainType) → Formed (Told old) id_of t → Distinct u
        → IsExact old new id_of lost t u }
{}

/// Of the empty text, `a`, `aa`, .. there is a least one that is no choice.
pub fn some_text_is_unused()
    ensures { (choices : List Text) → IsLeastUnused choices (unused choices) }
{}

/// Of each entity type, an id that fits in the old meaning and not in the new one is found, if there is one.
pub fn lost_ids_are_found()
    ensures { (old new : SchemaMeaning) (ty : Name) → IsLostId old new ty (lost_of old new ty) }
{}

/// In a settled meaning every type has a value.
pub fn types_of_meanings_have_values()
    ensures { (m : SchemaMeaning) → IsSettled m → (t : PlainType) → IsOrdered t → IsKnown m t
        → Has (Fits m) t (some_value (some_id m) t) }
{}

/// Between two settled meanings the first value that is lost is found, if one is.
pub fn the_first_lost_is_found()
    ensures { (old new : SchemaMeaning) → IsSettled old → IsSettled new → IsInclusion old new (lost old new) }
{}
