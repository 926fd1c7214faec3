//! Laws of the reasons for which meanings do not admit values. Each law is what its function ensures.
ghost use Rattle.std.specs.Prelude.{MatchOption};
ghost use Rattle.cedar_names.specs.Meaning.{SchemaMeaning};
ghost use Rattle.schema_inclusion_values.specs.Settled.{IsSettled};
ghost use Rattle.schema_inclusion_values.specs.Admits.{SchemaValue, Admits};
ghost use Rattle.schema_inclusion_reasons.specs.Reasons.{Reason, IsReason, IsFirstReason};
ghost use Rattle.schema_inclusion_reasons.specs.FirstReason.{first_reason};

/// A reason holds only of a value that the meaning does not admit.
pub fn reasons_refuse()
    ensures { (m : SchemaMeaning) → IsSettled m → (x : SchemaValue) (r : Reason) → IsReason m x r → Admits m x → ⊥ }
{}

/// The first reason is found, or the meaning admits the value.
pub fn the_first_reason_is_found()
    ensures { (m : SchemaMeaning) → IsSettled m → (x : SchemaValue)
        → MatchOption (first_reason m x) (Admits m x) (IsFirstReason m x) }
{}

/// Each value that the meaning does not admit has a first reason.
pub fn reasons_are_found()
    ensures { (m : SchemaMeaning) → IsSettled m → (x : SchemaValue) → (Admits m x → ⊥)
        → (r : Reason) × IsFirstReason m x r }
{}
