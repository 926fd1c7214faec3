ghost use Rattle.std.specs.Prelude.{◌≡◌};
ghost use Rattle.schema_json_shapes.specs.Walk.{role_text};

/// What a text is the name of.
#[derive(Clone, Copy, Drop, PartialEq, Eq)]
pub enum NameRole {
    Namespace,
    Id,
    ExtensionType,
    Name,
    EntityType,
    EntityOrCommonType,
    CommonType,
    Annotation,
}

impl NameRole {
    /// What faults call the role.
    pub fn as_str(self) -> &'static str
        ensures { result.now ≡ role_text self }
    {
        match self {
            NameRole::Namespace => "namespace",
            NameRole::Id => "id",
            NameRole::ExtensionType => "extension type",
            NameRole::Name => "name",
            NameRole::EntityType => "entity type",
            NameRole::EntityOrCommonType => "entity or common type",
            NameRole::CommonType => "common type",
            NameRole::Annotation => "annotation",
        }
    }
}
