//! A law of reading. It is what its function ensures; the function does nothing.
ghost use Rattle.std.specs.Prelude.{List, ℕ};
ghost use Rattle.serde_json.specs.Data.{Data};
ghost use Rattle.schema_json_shapes.specs.declared.shape_fault.ShapeFault.{ShapeFault as Fault};
ghost use Rattle.schema_json_shapes.specs.Walk.{Role, AllMet, FirstUnmet, demands};

/// A value that keeps what it must has no fault, whatever it is read as.
pub fn lawful_values_have_no_fault()
    ensures { (r : Role) (n : List ℕ) (d : Data) (e : Fault) → AllMet (demands r n d) → ¬ FirstUnmet (demands r n d) e }
{}
