//! What every part of the front end speaks of: plain data, where bytes come from and go to, names, which names are
//! defined, and the meaning of a schema with its canonical text.
#![tactic(auto)]

pub mod all_defs;
pub mod entity_uid;
pub mod extension_table;
mod halving;
pub mod laws;
mod rising;
pub mod sought;
pub mod steps;
pub mod table_error;
mod table_words;

pub use all_defs::AllDefs;
pub use cedar_data::{
    Boxed, CloneIn, Diagnostic, Label, List, Loc, Map, Node, NonEmpty, NonEmptyIntoIter,
    NonEmptyIter, Set, Severity, Text, lawful,
};
pub use cedar_identifiers::{
    Annotations, AnyId, ConditionalName, Eid, Id, InternalName, Name, NameFault, NameKind,
    NameText, RawName, ReferenceType, UnreservedId,
};
pub use cedar_io::{Failed, MemorySink, MemorySource, NullSink, Sink, Source, SteadySource};
pub use entity_uid::EntityUID;
pub use extension_table::{ExtensionTable, Extensions};
pub use sought::compare_behind;
pub use steps::Steps;
pub use table_error::TableError;
