// The fields of each object. A table is a literal, and none takes memory.
ghost use Rattle.std.specs.Prelude.{◌≡◌, true, false};
ghost use Rattle.schema_json_shapes.specs.Seen.{table};
ghost use Rattle.schema_compat_shapes.specs.OldTypes.{old_type_fields};
ghost use Rattle.schema_compat_shapes.specs.OldWalk.{old_namespace_fields, old_entity_type_fields, old_action_fields};
ghost use Rattle.schema_compat_shapes.specs.OldWalk.{old_applies_to_fields};

use schema_json_shapes::TypeWord;
use schema_json_shapes::tables::{
    ACTIONS, ADDITIONAL_ATTRIBUTES, APPLIES_TO, ATTRIBUTES, COMMON_TYPES, CONTEXT, ELEMENT,
    ENTITY_TYPES, Field, MEMBER_OF, MEMBER_OF_TYPES, NAME, RECORD_ATTRIBUTES, REQUIRED, SHAPE,
    TYPE,
};

const RESOURCE_TYPES: Field = Field {
    name: "resourceTypes",
    needed: false,
};

const PRINCIPAL_TYPES: Field = Field {
    name: "principalTypes",
    needed: false,
};

// The fields of a type of this word, where it stands as an attribute or not.
pub(crate) fn type_fields(as_attribute: bool, word: TypeWord) -> &'static [Field]
    ensures { table result.now ≡ old_type_fields as_attribute word }
{
    if as_attribute {
        attribute_fields(word)
    } else {
        plain_fields(word)
    }
}

fn attribute_fields(word: TypeWord) -> &'static [Field]
    ensures { table result.now ≡ old_type_fields true word }
{
    match word {
        TypeWord::Set => &[TYPE, ELEMENT, REQUIRED],
        TypeWord::Record => &[TYPE, RECORD_ATTRIBUTES, ADDITIONAL_ATTRIBUTES, REQUIRED],
        TypeWord::Entity | TypeWord::EntityOrCommon | TypeWord::Extension => &[
            TYPE, NAME, REQUIRED,
        ],
        TypeWord::String | TypeWord::Long | TypeWord::Boolean | TypeWord::Reference => {
            &[TYPE, REQUIRED]
        }
    }
}

fn plain_fields(word: TypeWord) -> &'static [Field]
    ensures { table result.now ≡ old_type_fields false word }
{
    match word {
        TypeWord::Set => &[TYPE, ELEMENT],
        TypeWord::Record => &[TYPE, RECORD_ATTRIBUTES, ADDITIONAL_ATTRIBUTES],
        TypeWord::Entity | TypeWord::EntityOrCommon | TypeWord::Extension => &[TYPE, NAME],
        TypeWord::String | TypeWord::Long | TypeWord::Boolean | TypeWord::Reference => &[TYPE],
    }
}

// The fields of a namespace.
pub(crate) fn namespace_fields() -> &'static [Field]
    ensures { table result.now ≡ old_namespace_fields }
{
    &[COMMON_TYPES, ENTITY_TYPES, ACTIONS]
}

// The fields of an entity type.
pub(crate) fn entity_type_fields() -> &'static [Field]
    ensures { table result.now ≡ old_entity_type_fields }
{
    &[MEMBER_OF_TYPES, SHAPE]
}

// The fields of an action.
pub(crate) fn action_fields() -> &'static [Field]
    ensures { table result.now ≡ old_action_fields }
{
    &[ATTRIBUTES, APPLIES_TO, MEMBER_OF]
}

// The fields of what an action applies to.
pub(crate) fn applies_to_fields() -> &'static [Field]
    ensures { table result.now ≡ old_applies_to_fields }
{
    &[RESOURCE_TYPES, PRINCIPAL_TYPES, CONTEXT]
}
