// The symbols of the grammar, each with what comes after a first token.

ghost use Rattle.std.specs.Prelude.{◌≡◌, ◌∷◌, [], None};
ghost use Rattle.std.specs.Option.{option_copied};
ghost use Rattle.schema_syntax_grammar.specs.Table.{is_nullable, after_front, find, row, one, ident, word, name};

use crate::token_kind::TokenKind;

/// A part of a sentence that may still come. A symbol whose name ends in `Tail` may stand for nothing, but for
/// `EntityTail`.
#[derive(Clone, Copy, PartialEq, Eq)]
pub enum Symbol {
    /// One token of the kind.
    Token(TokenKind),
    /// The items that may still come.
    Schema,
    /// An item, after its annotations.
    Item,
    /// The declarations of a namespace that may still come.
    Decls,
    /// A declaration, after its annotations.
    Decl,
    /// An annotation's value, in parentheses.
    AnnotationTail,
    /// What comes after `namespace`.
    AfterNamespace,
    /// What comes after `entity`.
    AfterEntity,
    /// What comes after the names of an entity or an enumeration.
    EntityTail,
    /// What comes after `external`.
    AfterExternal,
    /// What comes after `action`.
    AfterAction,
    /// What comes after `type`.
    AfterType,
    /// Any word.
    Word,
    /// Any word but `in`.
    Ident,
    /// More words after commas.
    IdentsTail,
    /// A word or a string.
    Name,
    /// More names after commas.
    NamesTail,
    /// The parents of an entity.
    ParentsTail,
    /// The record of an entity.
    ShapeTail,
    /// The tags of an entity.
    TagsTail,
    /// The strings of an enumeration, up to the bracket.
    Strings,
    /// More strings after a comma.
    StringsTail,
    /// The parents of an action.
    RefsTail,
    /// What an action applies to.
    AppliesTail,
    /// What an action applies to, up to the brace.
    Apps,
    /// More of it after a comma.
    AppsTail,
    /// A path or a record.
    ContextType,
    /// More words of a path.
    PathTail,
    /// A path, or paths in brackets.
    Types,
    /// Paths, up to the bracket.
    Paths,
    /// More paths after a comma.
    PathsTail,
    /// An action, or actions in brackets.
    Refs,
    /// Actions, up to the bracket.
    RefList,
    /// More actions after a comma.
    RefListTail,
    /// The rest of an action that begins with a word.
    RefTail,
    /// What comes after a `::` in the path of an action.
    RefStep,
    /// A type.
    AnyType,
    /// What comes after `Set` in a type.
    SetTail,
    /// A record.
    Record,
    /// Attributes, up to the brace.
    Attrs,
    /// More attributes after a comma.
    AttrsTail,
    /// An attribute, after its annotations.
    Attr,
    /// The question mark of an attribute.
    Mark,
}

// The tokens that stand within productions.
const SEMI: Symbol = Symbol::Token(TokenKind::Semi);

const COLON: Symbol = Symbol::Token(TokenKind::Colon);

const EQUALS: Symbol = Symbol::Token(TokenKind::Equals);

const STRING: Symbol = Symbol::Token(TokenKind::StringLit);

const R_PAREN: Symbol = Symbol::Token(TokenKind::RParen);

const L_BRACE: Symbol = Symbol::Token(TokenKind::LBrace);

const R_BRACE: Symbol = Symbol::Token(TokenKind::RBrace);

const L_BRACKET: Symbol = Symbol::Token(TokenKind::LBracket);

const R_BRACKET: Symbol = Symbol::Token(TokenKind::RBracket);

const GREATER: Symbol = Symbol::Token(TokenKind::Greater);

const PATH_SEP: Symbol = Symbol::Token(TokenKind::PathSep);

impl Symbol {
    /// Whether the symbol may stand for nothing.
    pub fn is_nullable(self) -> bool
        ensures { result ≡ is_nullable self }
    {
        matches!(
            self,
            Symbol::Schema
                | Symbol::Decls
                | Symbol::AnnotationTail
                | Symbol::IdentsTail
                | Symbol::NamesTail
                | Symbol::ParentsTail
                | Symbol::ShapeTail
                | Symbol::TagsTail
                | Symbol::Strings
                | Symbol::StringsTail
                | Symbol::RefsTail
                | Symbol::AppliesTail
                | Symbol::Apps
                | Symbol::AppsTail
                | Symbol::PathTail
                | Symbol::Paths
                | Symbol::PathsTail
                | Symbol::RefList
                | Symbol::RefListTail
                | Symbol::RefTail
                | Symbol::SetTail
                | Symbol::Attrs
                | Symbol::AttrsTail
                | Symbol::Mark
        )
    }

    /// The symbols that come after a token of the kind, where it is the first of the symbol.
    // Callers go over symbols in a loop, before which LLVM would make each comparison of the kind.
    #[inline(never)]
    #[tactic(auto, unfolding(crate::specs::Table::after_front))]
    pub fn after_front(self, kind: TokenKind) -> Option<&'static [Symbol]>
        ensures { option_copied result ≡ after_front self kind }
    {
        match self {
            Symbol::Token(wanted) => only(kind, wanted, &[]),
            Symbol::Schema => after_schema_front(kind),
            Symbol::Item => after_item_front(kind),
            Symbol::Decls => after_decls_front(kind),
            Symbol::Decl => after_decl_front(kind),
            Symbol::AnnotationTail => only(kind, TokenKind::LParen, &[STRING, R_PAREN]),
            Symbol::AfterNamespace => only_ident(
                kind,
                &[Symbol::PathTail, L_BRACE, Symbol::Decls, R_BRACE],
            ),
            Symbol::AfterEntity => only_ident(kind, &[Symbol::IdentsTail, Symbol::EntityTail]),
            Symbol::EntityTail => after_entity_tail_front(kind),
            Symbol::AfterExternal => after_external_front(kind),
            Symbol::AfterAction => only_name(
                kind,
                &[
                    Symbol::NamesTail,
                    Symbol::RefsTail,
                    Symbol::AppliesTail,
                    SEMI,
                ],
            ),
            Symbol::AfterType => only_ident(kind, &[EQUALS, Symbol::AnyType, SEMI]),
            Symbol::Word => only_word(kind, &[]),
            Symbol::Ident => only_ident(kind, &[]),
            Symbol::IdentsTail => only(
                kind,
                TokenKind::Comma,
                &[Symbol::Ident, Symbol::IdentsTail],
            ),
            Symbol::Name => only_name(kind, &[]),
            Symbol::NamesTail => only(kind, TokenKind::Comma, &[Symbol::Name, Symbol::NamesTail]),
            Symbol::ParentsTail => only(kind, TokenKind::KwIn, &[Symbol::Types]),
            Symbol::ShapeTail => after_shape_tail_front(kind),
            Symbol::TagsTail => only(kind, TokenKind::KwTags, &[Symbol::AnyType]),
            Symbol::Strings => only(kind, TokenKind::StringLit, &[Symbol::StringsTail]),
            Symbol::StringsTail => only(kind, TokenKind::Comma, &[Symbol::Strings]),
            Symbol::RefsTail => only(kind, TokenKind::KwIn, &[Symbol::Refs]),
            Symbol::AppliesTail => only(
                kind,
                TokenKind::KwAppliesTo,
                &[L_BRACE, Symbol::Apps, R_BRACE],
            ),
            Symbol::Apps => after_apps_front(kind),
            Symbol::AppsTail => only(kind, TokenKind::Comma, &[Symbol::Apps]),
            Symbol::ContextType => after_context_type_front(kind),
            Symbol::PathTail => only(kind, TokenKind::PathSep, &[Symbol::Ident, Symbol::PathTail]),
            Symbol::Types => after_types_front(kind),
            Symbol::Paths => only_ident(kind, &[Symbol::PathTail, Symbol::PathsTail]),
            Symbol::PathsTail => only(kind, TokenKind::Comma, &[Symbol::Paths]),
            Symbol::Refs => after_refs_front(kind),
            Symbol::RefList => after_ref_list_front(kind),
            Symbol::RefListTail => only(kind, TokenKind::Comma, &[Symbol::RefList]),
            Symbol::RefTail => only(kind, TokenKind::PathSep, &[Symbol::RefStep]),
            Symbol::RefStep => after_ref_step_front(kind),
            Symbol::AnyType => after_any_type_front(kind),
            Symbol::SetTail => after_set_tail_front(kind),
            Symbol::Record => only(kind, TokenKind::LBrace, &[Symbol::Attrs, R_BRACE]),
            Symbol::Attrs => after_attrs_front(kind),
            Symbol::AttrsTail => only(kind, TokenKind::Comma, &[Symbol::Attrs]),
            Symbol::Attr => after_attr_front(kind),
            Symbol::Mark => only(kind, TokenKind::Question, &[]),
        }
    }
}

// What comes next, where only a token of one kind may come first.
fn only(kind: TokenKind, wanted: TokenKind, next: &'static [Symbol]) -> Option<&'static [Symbol]>
    ensures { option_copied result ≡ find (row (one wanted) next.now ∷ []) kind }
{
    if wanted == kind { Some(next) } else { None }
}

// What comes next, where only any word may come first.
fn only_word(kind: TokenKind, next: &'static [Symbol]) -> Option<&'static [Symbol]>
    ensures { option_copied result ≡ find (row word next.now ∷ []) kind }
{
    if kind.is_word() { Some(next) } else { None }
}

// What comes next, where only a word but `in` may come first.
fn only_ident(kind: TokenKind, next: &'static [Symbol]) -> Option<&'static [Symbol]>
    ensures { option_copied result ≡ find (row ident next.now ∷ []) kind }
{
    if kind.is_ident() { Some(next) } else { None }
}

// What comes next, where only a word but `in`, or a string, may come first.
fn only_name(kind: TokenKind, next: &'static [Symbol]) -> Option<&'static [Symbol]>
    ensures { option_copied result ≡ find (row name next.now ∷ []) kind }
{
    if kind.is_name() { Some(next) } else { None }
}

#[tactic(auto, unfolding(crate::specs::Table::after_front))]
fn after_schema_front(kind: TokenKind) -> Option<&'static [Symbol]>
    ensures { option_copied result ≡ after_front Symbol.Schema kind }
{
    match kind {
        TokenKind::At => Some(&[
            Symbol::Word,
            Symbol::AnnotationTail,
            Symbol::Item,
            Symbol::Schema,
        ]),
        TokenKind::KwNamespace => Some(&[Symbol::AfterNamespace, Symbol::Schema]),
        TokenKind::KwEntity => Some(&[Symbol::AfterEntity, Symbol::Schema]),
        TokenKind::KwExternal => Some(&[Symbol::AfterExternal, Symbol::Schema]),
        TokenKind::KwAction => Some(&[Symbol::AfterAction, Symbol::Schema]),
        TokenKind::KwType => Some(&[Symbol::AfterType, Symbol::Schema]),
        _ => None,
    }
}

#[tactic(auto, unfolding(crate::specs::Table::after_front))]
fn after_item_front(kind: TokenKind) -> Option<&'static [Symbol]>
    ensures { option_copied result ≡ after_front Symbol.Item kind }
{
    match kind {
        TokenKind::At => Some(&[Symbol::Word, Symbol::AnnotationTail, Symbol::Item]),
        TokenKind::KwNamespace => Some(&[Symbol::AfterNamespace]),
        TokenKind::KwEntity => Some(&[Symbol::AfterEntity]),
        TokenKind::KwExternal => Some(&[Symbol::AfterExternal]),
        TokenKind::KwAction => Some(&[Symbol::AfterAction]),
        TokenKind::KwType => Some(&[Symbol::AfterType]),
        _ => None,
    }
}

#[tactic(auto, unfolding(crate::specs::Table::after_front))]
fn after_decls_front(kind: TokenKind) -> Option<&'static [Symbol]>
    ensures { option_copied result ≡ after_front Symbol.Decls kind }
{
    match kind {
        TokenKind::At => Some(&[
            Symbol::Word,
            Symbol::AnnotationTail,
            Symbol::Decl,
            Symbol::Decls,
        ]),
        TokenKind::KwEntity => Some(&[Symbol::AfterEntity, Symbol::Decls]),
        TokenKind::KwExternal => Some(&[Symbol::AfterExternal, Symbol::Decls]),
        TokenKind::KwAction => Some(&[Symbol::AfterAction, Symbol::Decls]),
        TokenKind::KwType => Some(&[Symbol::AfterType, Symbol::Decls]),
        _ => None,
    }
}

#[tactic(auto, unfolding(crate::specs::Table::after_front))]
fn after_decl_front(kind: TokenKind) -> Option<&'static [Symbol]>
    ensures { option_copied result ≡ after_front Symbol.Decl kind }
{
    match kind {
        TokenKind::At => Some(&[Symbol::Word, Symbol::AnnotationTail, Symbol::Decl]),
        TokenKind::KwEntity => Some(&[Symbol::AfterEntity]),
        TokenKind::KwExternal => Some(&[Symbol::AfterExternal]),
        TokenKind::KwAction => Some(&[Symbol::AfterAction]),
        TokenKind::KwType => Some(&[Symbol::AfterType]),
        _ => None,
    }
}

#[tactic(auto, unfolding(crate::specs::Table::after_front))]
fn after_entity_tail_front(kind: TokenKind) -> Option<&'static [Symbol]>
    ensures { option_copied result ≡ after_front Symbol.EntityTail kind }
{
    match kind {
        TokenKind::KwIn => Some(&[Symbol::Types, Symbol::ShapeTail, Symbol::TagsTail, SEMI]),
        TokenKind::Equals => Some(&[Symbol::Record, Symbol::TagsTail, SEMI]),
        TokenKind::LBrace => Some(&[Symbol::Attrs, R_BRACE, Symbol::TagsTail, SEMI]),
        TokenKind::KwTags => Some(&[Symbol::AnyType, SEMI]),
        TokenKind::KwEnum => Some(&[L_BRACKET, Symbol::Strings, R_BRACKET, SEMI]),
        TokenKind::Semi => Some(&[]),
        _ => None,
    }
}

#[tactic(auto, unfolding(crate::specs::Table::after_front))]
fn after_external_front(kind: TokenKind) -> Option<&'static [Symbol]>
    ensures { option_copied result ≡ after_front Symbol.AfterExternal kind }
{
    match kind {
        TokenKind::KwEntity => Some(&[
            Symbol::Ident,
            Symbol::IdentsTail,
            Symbol::ParentsTail,
            SEMI,
        ]),
        TokenKind::KwAction => Some(&[Symbol::Name, Symbol::NamesTail, Symbol::RefsTail, SEMI]),
        _ => None,
    }
}

#[tactic(auto, unfolding(crate::specs::Table::after_front))]
fn after_shape_tail_front(kind: TokenKind) -> Option<&'static [Symbol]>
    ensures { option_copied result ≡ after_front Symbol.ShapeTail kind }
{
    match kind {
        TokenKind::Equals => Some(&[Symbol::Record]),
        TokenKind::LBrace => Some(&[Symbol::Attrs, R_BRACE]),
        _ => None,
    }
}

#[tactic(auto, unfolding(crate::specs::Table::after_front))]
fn after_apps_front(kind: TokenKind) -> Option<&'static [Symbol]>
    ensures { option_copied result ≡ after_front Symbol.Apps kind }
{
    match kind {
        TokenKind::KwPrincipal => Some(&[COLON, Symbol::Types, Symbol::AppsTail]),
        TokenKind::KwResource => Some(&[COLON, Symbol::Types, Symbol::AppsTail]),
        TokenKind::KwContext => Some(&[COLON, Symbol::ContextType, Symbol::AppsTail]),
        _ => None,
    }
}

#[tactic(auto, unfolding(crate::specs::Table::after_front))]
fn after_context_type_front(kind: TokenKind) -> Option<&'static [Symbol]>
    ensures { option_copied result ≡ after_front Symbol.ContextType kind }
{
    match kind {
        _ if kind.is_ident() => Some(&[Symbol::PathTail]),
        TokenKind::LBrace => Some(&[Symbol::Attrs, R_BRACE]),
        _ => None,
    }
}

#[tactic(auto, unfolding(crate::specs::Table::after_front))]
fn after_types_front(kind: TokenKind) -> Option<&'static [Symbol]>
    ensures { option_copied result ≡ after_front Symbol.Types kind }
{
    match kind {
        _ if kind.is_ident() => Some(&[Symbol::PathTail]),
        TokenKind::LBracket => Some(&[Symbol::Paths, R_BRACKET]),
        _ => None,
    }
}

#[tactic(auto, unfolding(crate::specs::Table::after_front))]
fn after_refs_front(kind: TokenKind) -> Option<&'static [Symbol]>
    ensures { option_copied result ≡ after_front Symbol.Refs kind }
{
    match kind {
        _ if kind.is_ident() => Some(&[Symbol::RefTail]),
        TokenKind::StringLit => Some(&[]),
        TokenKind::LBracket => Some(&[Symbol::RefList, R_BRACKET]),
        _ => None,
    }
}

#[tactic(auto, unfolding(crate::specs::Table::after_front))]
fn after_ref_list_front(kind: TokenKind) -> Option<&'static [Symbol]>
    ensures { option_copied result ≡ after_front Symbol.RefList kind }
{
    match kind {
        _ if kind.is_ident() => Some(&[Symbol::RefTail, Symbol::RefListTail]),
        TokenKind::StringLit => Some(&[Symbol::RefListTail]),
        _ => None,
    }
}

#[tactic(auto, unfolding(crate::specs::Table::after_front))]
fn after_ref_step_front(kind: TokenKind) -> Option<&'static [Symbol]>
    ensures { option_copied result ≡ after_front Symbol.RefStep kind }
{
    match kind {
        _ if kind.is_ident() => Some(&[PATH_SEP, Symbol::RefStep]),
        TokenKind::StringLit => Some(&[]),
        _ => None,
    }
}

#[tactic(auto, unfolding(crate::specs::Table::after_front))]
fn after_any_type_front(kind: TokenKind) -> Option<&'static [Symbol]>
    ensures { option_copied result ≡ after_front Symbol.AnyType kind }
{
    match kind {
        TokenKind::KwSet => Some(&[Symbol::SetTail]),
        _ if kind.is_ident() => Some(&[Symbol::PathTail]),
        TokenKind::LBrace => Some(&[Symbol::Attrs, R_BRACE]),
        _ => None,
    }
}

#[tactic(auto, unfolding(crate::specs::Table::after_front))]
fn after_set_tail_front(kind: TokenKind) -> Option<&'static [Symbol]>
    ensures { option_copied result ≡ after_front Symbol.SetTail kind }
{
    match kind {
        TokenKind::Less => Some(&[Symbol::AnyType, GREATER]),
        TokenKind::PathSep => Some(&[Symbol::Ident, Symbol::PathTail]),
        _ => None,
    }
}

#[tactic(auto, unfolding(crate::specs::Table::after_front))]
fn after_attrs_front(kind: TokenKind) -> Option<&'static [Symbol]>
    ensures { option_copied result ≡ after_front Symbol.Attrs kind }
{
    match kind {
        _ if kind.is_name() => Some(&[Symbol::Mark, COLON, Symbol::AnyType, Symbol::AttrsTail]),
        TokenKind::At => Some(&[
            Symbol::Word,
            Symbol::AnnotationTail,
            Symbol::Attr,
            Symbol::AttrsTail,
        ]),
        _ => None,
    }
}

#[tactic(auto, unfolding(crate::specs::Table::after_front))]
fn after_attr_front(kind: TokenKind) -> Option<&'static [Symbol]>
    ensures { option_copied result ≡ after_front Symbol.Attr kind }
{
    match kind {
        _ if kind.is_name() => Some(&[Symbol::Mark, COLON, Symbol::AnyType]),
        TokenKind::At => Some(&[Symbol::Word, Symbol::AnnotationTail, Symbol::Attr]),
        _ => None,
    }
}
