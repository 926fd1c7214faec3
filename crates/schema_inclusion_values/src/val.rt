use cedar_data::{List, Text};
use cedar_identifiers::{Name, UnreservedId};

/// A value of a type of a schema.
#[cycle(vals)]
#[derive(Drop)]
pub enum Val {
    Bool(bool),
    Long(i64),
    Str(Text),
    /// The entity of this type with this id.
    Ref(Name, Text),
    /// A set, by its members.
    Set(List<Val>),
    /// A record: each attribute by its name, in the order of the names.
    Rec(List<(Text, Val)>),
    /// The one value of the extension type of this name.
    Ext(UnreservedId),
}
