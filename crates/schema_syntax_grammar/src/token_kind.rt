ghost use Rattle.std.specs.Prelude.{◌≡◌};
ghost use Rattle.schema_syntax_grammar.specs.Grammar.{is_word_kind, is_ident, is_name_kind};

/// What has a kind of token, such as a token.
pub trait HasKind {
    ghost use Rattle.std.specs.Prelude.{◌≡◌};
    ghost use Rattle.schema_syntax_grammar.specs.declared.token_kind.TokenKind.{TokenKind};

    ghost kind_of: { Self → TokenKind };

    /// Its kind.
    fn kind(&self) -> TokenKind
        ensures { result ≡ kind_of self.now };
}

/// What kind of token it is. Each of the words that are variants `Kw..` is a kind for itself; all the others are
/// identifiers. `End` is no token, but the end of the input.
#[derive(Clone, Copy, PartialEq, Eq)]
pub enum TokenKind {
    /// `namespace`
    KwNamespace,
    /// `entity`
    KwEntity,
    /// `external`
    KwExternal,
    /// `in`
    KwIn,
    /// `type`
    KwType,
    /// `Set`
    KwSet,
    /// `appliesTo`
    KwAppliesTo,
    /// `principal`
    KwPrincipal,
    /// `action`
    KwAction,
    /// `resource`
    KwResource,
    /// `context`
    KwContext,
    /// `tags`
    KwTags,
    /// `enum`
    KwEnum,
    /// Any other word.
    Identifier,
    /// A string between double quotes.
    StringLit,
    /// `@`
    At,
    /// `,`
    Comma,
    /// `;`
    Semi,
    /// `:`
    Colon,
    /// `::`
    PathSep,
    /// `(`
    LParen,
    /// `)`
    RParen,
    /// `{`
    LBrace,
    /// `}`
    RBrace,
    /// `[`
    LBracket,
    /// `]`
    RBracket,
    /// `<`
    Less,
    /// `>`
    Greater,
    /// `?`
    Question,
    /// `=`
    Equals,
    /// The end of the input.
    End,
}

/// All kinds, in the order in which expected kinds are listed.
pub const ALL_KINDS: [TokenKind; 31] = [
    TokenKind::KwNamespace,
    TokenKind::KwEntity,
    TokenKind::KwExternal,
    TokenKind::KwIn,
    TokenKind::KwType,
    TokenKind::KwSet,
    TokenKind::KwAppliesTo,
    TokenKind::KwPrincipal,
    TokenKind::KwAction,
    TokenKind::KwResource,
    TokenKind::KwContext,
    TokenKind::KwTags,
    TokenKind::KwEnum,
    TokenKind::Identifier,
    TokenKind::StringLit,
    TokenKind::At,
    TokenKind::Comma,
    TokenKind::Semi,
    TokenKind::Colon,
    TokenKind::PathSep,
    TokenKind::LParen,
    TokenKind::RParen,
    TokenKind::LBrace,
    TokenKind::RBrace,
    TokenKind::LBracket,
    TokenKind::RBracket,
    TokenKind::Less,
    TokenKind::Greater,
    TokenKind::Question,
    TokenKind::Equals,
    TokenKind::End,
];

impl HasKind for TokenKind {
    ghost kind_of = { λ kind. kind };

    fn kind(&self) -> TokenKind {
        *self
    }
}

impl TokenKind {
    /// Whether it is the kind of a word.
    pub fn is_word(self) -> bool
        ensures { result ≡ is_word_kind self }
    {
        matches!(
            self,
            TokenKind::KwNamespace
                | TokenKind::KwEntity
                | TokenKind::KwExternal
                | TokenKind::KwIn
                | TokenKind::KwType
                | TokenKind::KwSet
                | TokenKind::KwAppliesTo
                | TokenKind::KwPrincipal
                | TokenKind::KwAction
                | TokenKind::KwResource
                | TokenKind::KwContext
                | TokenKind::KwTags
                | TokenKind::KwEnum
                | TokenKind::Identifier
        )
    }

    /// Whether it is the kind of a word that can be a name: any word but `in`.
    pub fn is_ident(self) -> bool
        ensures { result ≡ is_ident self }
    {
        self.is_word() && self != TokenKind::KwIn
    }

    /// Whether it is the kind of a name: of a word but `in`, or of a string.
    pub fn is_name(self) -> bool
        ensures { result ≡ is_name_kind self }
    {
        match self {
            TokenKind::StringLit => true,
            _ => self.is_ident(),
        }
    }
}
