//! Laws of the walk. Each law is what its function ensures; the functions do nothing.
ghost use Rattle.std.specs.Prelude.{◌≡◌, List, Option};
ghost use Rattle.std.specs.List.{flat_map};
ghost use Rattle.cedar_identifiers.specs.declared.name.Name.{Name};
ghost use Rattle.schema_json_walk.specs.Parts.{Part};
ghost use Rattle.schema_json_walk.specs.Walk.{of_type, parts, of_fragment, fragment_parts};

use cedar_identifiers::NameText;
use schema_json::{Fragment, Type};

/// What the walk of a type gives is what its parts give, one after another.
pub fn type_gives_what_its_parts_give<N, U>(ty: &Type<N>)
    ensures { (visit : Part N → List U) → of_type visit ty.now ≡ flat_map visit (parts ty.now) }
{}

/// What the walk of a fragment gives is what its parts give, one after another.
pub fn fragment_gives_what_its_parts_give<N: NameText, U>(fragment: &Fragment<N>)
    ensures { (visit : Option Name → Part N → List U) → of_fragment visit fragment.now
        ≡ flat_map (λ e. visit e.0 e.1) (fragment_parts fragment.now) }
{}
