ghost use Rattle.std.specs.Prelude.{◌≡◌};
ghost use Rattle.schema_json_shapes.specs.Tables.{word_of};

use cedar_data::same_bytes;

/// What the member `type` of a type says.
#[derive(Clone, Copy, Drop, PartialEq, Eq)]
pub enum TypeWord {
    String,
    Long,
    Boolean,
    Set,
    Record,
    Entity,
    EntityOrCommon,
    Extension,
    /// Any other text refers to a common type of that name.
    Reference,
}

/// Where a type stands, which says what may stand beside it.
#[derive(Clone, Copy, Drop, PartialEq, Eq)]
pub enum TypeSite {
    /// As neither of the others: nothing may stand beside it.
    Plain,
    /// As the type of an attribute: `required` and `annotations` may stand beside it.
    Attribute,
    /// As what a common type stands for: `annotations` may stand beside it.
    Common,
}

/// The word that a text is. Only the words of its own length are compared with it.
pub fn word_of(text: &str) -> TypeWord
    ensures { result ≡ word_of text.now }
{
    match text.len() {
        3 => {
            if same_bytes(text, "Set") {
                TypeWord::Set
            } else {
                TypeWord::Reference
            }
        }
        4 => {
            if same_bytes(text, "Long") {
                TypeWord::Long
            } else {
                TypeWord::Reference
            }
        }
        6 => {
            if same_bytes(text, "String") {
                TypeWord::String
            } else if same_bytes(text, "Record") {
                TypeWord::Record
            } else if same_bytes(text, "Entity") {
                TypeWord::Entity
            } else {
                TypeWord::Reference
            }
        }
        7 => {
            if same_bytes(text, "Boolean") {
                TypeWord::Boolean
            } else {
                TypeWord::Reference
            }
        }
        9 => {
            if same_bytes(text, "Extension") {
                TypeWord::Extension
            } else {
                TypeWord::Reference
            }
        }
        14 => {
            if same_bytes(text, "EntityOrCommon") {
                TypeWord::EntityOrCommon
            } else {
                TypeWord::Reference
            }
        }
        _ => TypeWord::Reference,
    }
}
