//! The syntax of Cedar schema texts: the tree of a text, or why it has none.
#![tactic(auto)]

pub mod laws;
pub mod nesting;
pub mod schema_parser;
pub mod syntax_fault;

pub use cedar_data::Diagnostic;
pub use laws::{faulty_or_sentence, one_syntax_fault, tree_or_error};
pub use nesting::{DEEPEST, is_too_deep};
pub use schema_parser::{parse_schema, parse_tokens, refused, stopped};
pub use schema_syntax_errors::{
    AnnotationError, ParseError, ParseErrors, ParseSchemaError, UnescapeError, UserError,
    expected_text,
};
pub use schema_syntax_grammar::{TokenKind, expected_after};
pub use schema_syntax_reader::deduplicate_annotations;
pub use schema_syntax_tokens::{Scanned, Token, scan};
pub use schema_syntax_tree::{
    ActionDecl, Annotated, AppDecl, AttrDecl, BUILTIN_TYPES, Decl, Declaration, DefinedActionDecl,
    Either, EntityDecl, EnumEntityDecl, ExternalActionDecl, ExternalEntityDecl, Namespace, PR,
    PRAppDecl, Path, PathIntoIter, PathIter, PrimitiveType, QualName, Schema, SrcAnnotation,
    SrcAnnotations, SrcId, SrcStr, SrcWord, StandardEntityDecl, Type, TypeDecl,
};
pub use syntax_fault::{Refused, SyntaxFault, sentence_of, syntax_fault_of};
