// What follows from the definitions.

ghost use Rattle.std.specs.Prelude.{◌≡◌, ℕ, List, Option, Some};
ghost use Rattle.schema_syntax_grammar.specs.declared.token_kind.TokenKind.{TokenKind};
ghost use Rattle.schema_assist_places.specs.declared.role.Role.{Role};
ghost use Rattle.schema_assist_places.specs.Homes.{StandsIn};
ghost use Rattle.schema_assist_places.specs.Names.{IsOpened};

/// At most one role and one namespace stand behind kinds.
pub fn one_place()
    ensures { (front : List TokenKind) (first second : Role) (here there : Option ℕ) → StandsIn front first here
        → StandsIn front second there → (first ≡ second) × (here ≡ there) }
{}

/// Where a role stands in a namespace, the kinds hold the opening of that namespace.
pub fn opened_before()
    ensures { (front : List TokenKind) (role : Role) (i : ℕ) → StandsIn front role (Some i)
        → IsOpened front i }
{}
