// The fields of each object. A table is a literal, and none takes memory.
ghost use Rattle.std.specs.Prelude.{◌≡◌};
ghost use Rattle.schema_json_shapes.specs.Seen.{table};
ghost use Rattle.schema_json_shapes.specs.Tables.{type_fields, namespace_fields, entity_type_fields, action_fields};
ghost use Rattle.schema_json_shapes.specs.Tables.{applies_to_fields, action_id_fields};

use crate::words::{TypeSite, TypeWord};

/// A field of an object, and whether each such object has it.
#[derive(Clone, Copy, Drop)]
pub struct Field {
    pub name: &'static str,
    /// Whether each such object has the field.
    pub needed: bool,
}

pub const TYPE: Field = Field {
    name: "type",
    needed: true,
};

pub const ELEMENT: Field = Field {
    name: "element",
    needed: true,
};

pub const RECORD_ATTRIBUTES: Field = Field {
    name: "attributes",
    needed: true,
};

pub const ADDITIONAL_ATTRIBUTES: Field = Field {
    name: "additionalAttributes",
    needed: false,
};

pub const NAME: Field = Field {
    name: "name",
    needed: true,
};

pub const REQUIRED: Field = Field {
    name: "required",
    needed: false,
};

const ANNOTATIONS: Field = Field {
    name: "annotations",
    needed: false,
};

pub const COMMON_TYPES: Field = Field {
    name: "commonTypes",
    needed: false,
};

pub const ENTITY_TYPES: Field = Field {
    name: "entityTypes",
    needed: true,
};

pub const ACTIONS: Field = Field {
    name: "actions",
    needed: true,
};

pub const MEMBER_OF_TYPES: Field = Field {
    name: "memberOfTypes",
    needed: false,
};

pub const SHAPE: Field = Field {
    name: "shape",
    needed: false,
};

const TAGS: Field = Field {
    name: "tags",
    needed: false,
};

const ENUM: Field = Field {
    name: "enum",
    needed: false,
};

const EXTERNAL: Field = Field {
    name: "external",
    needed: false,
};

pub const ATTRIBUTES: Field = Field {
    name: "attributes",
    needed: false,
};

pub const APPLIES_TO: Field = Field {
    name: "appliesTo",
    needed: false,
};

pub const MEMBER_OF: Field = Field {
    name: "memberOf",
    needed: false,
};

const RESOURCE_TYPES: Field = Field {
    name: "resourceTypes",
    needed: true,
};

const PRINCIPAL_TYPES: Field = Field {
    name: "principalTypes",
    needed: true,
};

pub const CONTEXT: Field = Field {
    name: "context",
    needed: false,
};

const ID: Field = Field {
    name: "id",
    needed: true,
};

const ACTION_TYPE: Field = Field {
    name: "type",
    needed: false,
};

/// The fields of a type of this word, where it stands here.
pub fn type_fields(site: TypeSite, word: TypeWord) -> &'static [Field]
    ensures { table result.now ≡ type_fields site word }
{
    match word {
        TypeWord::Set => set_fields(site),
        TypeWord::Record => record_fields(site),
        TypeWord::Entity | TypeWord::EntityOrCommon | TypeWord::Extension => named_fields(site),
        TypeWord::String | TypeWord::Long | TypeWord::Boolean | TypeWord::Reference => {
            plain_fields(site)
        }
    }
}

fn plain_fields(site: TypeSite) -> &'static [Field]
    ensures { table result.now ≡ type_fields site TypeWord.Long }
{
    match site {
        TypeSite::Plain => &[TYPE],
        TypeSite::Attribute => &[TYPE, REQUIRED, ANNOTATIONS],
        TypeSite::Common => &[TYPE, ANNOTATIONS],
    }
}

fn set_fields(site: TypeSite) -> &'static [Field]
    ensures { table result.now ≡ type_fields site TypeWord.Set }
{
    match site {
        TypeSite::Plain => &[TYPE, ELEMENT],
        TypeSite::Attribute => &[TYPE, ELEMENT, REQUIRED, ANNOTATIONS],
        TypeSite::Common => &[TYPE, ELEMENT, ANNOTATIONS],
    }
}

fn record_fields(site: TypeSite) -> &'static [Field]
    ensures { table result.now ≡ type_fields site TypeWord.Record }
{
    match site {
        TypeSite::Plain => &[TYPE, RECORD_ATTRIBUTES, ADDITIONAL_ATTRIBUTES],
        TypeSite::Attribute => &[
            TYPE,
            RECORD_ATTRIBUTES,
            ADDITIONAL_ATTRIBUTES,
            REQUIRED,
            ANNOTATIONS,
        ],
        TypeSite::Common => &[TYPE, RECORD_ATTRIBUTES, ADDITIONAL_ATTRIBUTES, ANNOTATIONS],
    }
}

fn named_fields(site: TypeSite) -> &'static [Field]
    ensures { table result.now ≡ type_fields site TypeWord.Entity }
{
    match site {
        TypeSite::Plain => &[TYPE, NAME],
        TypeSite::Attribute => &[TYPE, NAME, REQUIRED, ANNOTATIONS],
        TypeSite::Common => &[TYPE, NAME, ANNOTATIONS],
    }
}

/// The fields of a namespace.
pub fn namespace_fields() -> &'static [Field]
    ensures { table result.now ≡ namespace_fields }
{
    &[COMMON_TYPES, ENTITY_TYPES, ACTIONS, ANNOTATIONS]
}

/// The fields of an entity type.
pub fn entity_type_fields() -> &'static [Field]
    ensures { table result.now ≡ entity_type_fields }
{
    &[MEMBER_OF_TYPES, SHAPE, TAGS, ENUM, EXTERNAL, ANNOTATIONS]
}

/// The fields of an action.
pub fn action_fields() -> &'static [Field]
    ensures { table result.now ≡ action_fields }
{
    &[ATTRIBUTES, APPLIES_TO, MEMBER_OF, EXTERNAL, ANNOTATIONS]
}

/// The fields of what an action applies to.
pub fn applies_to_fields() -> &'static [Field]
    ensures { table result.now ≡ applies_to_fields }
{
    &[RESOURCE_TYPES, PRINCIPAL_TYPES, CONTEXT]
}

/// The fields of a reference to an action.
pub fn action_id_fields() -> &'static [Field]
    ensures { table result.now ≡ action_id_fields }
{
    &[ID, ACTION_TYPE]
}
