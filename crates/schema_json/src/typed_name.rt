ghost use Rattle.std.specs.Prelude.{◌≡◌, true, refl};

use cedar_identifiers::{ConditionalName, InternalName, Name, NameText};

/// Names that never leave the type of an action out.
pub trait TypedName: NameText {
    ghost typed: { Self.TYPED ≡ true };
}

impl TypedName for InternalName {
    ghost typed = { refl };
}

impl TypedName for Name {
    ghost typed = { refl };
}

impl TypedName for ConditionalName {
    ghost typed = { refl };
}
