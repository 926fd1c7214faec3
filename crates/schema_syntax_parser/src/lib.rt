//! The syntax of the tokens of Cedar schemas: which declarations they are, with every part's place, and nothing read of
//! words and strings.
#![tactic(auto)]

mod actions;
mod annotations;
mod decls;
mod front;
mod items;
pub mod laws;
pub mod parse;
mod paths;
pub mod stop;
pub mod syntax;
mod turns;
mod types;

pub use laws::{one_syntax, sentences_have_a_syntax, syntax_is_sentence};
pub use parse::next_item;
pub use stop::Stop;
pub use syntax::{
    AnnotationSyntax, AppSyntax, AttrSyntax, DeclSyntax, DeclaredSyntax, ItemSyntax, PathSyntax,
    TypeSyntax,
};
