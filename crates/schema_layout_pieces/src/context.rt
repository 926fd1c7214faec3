ghost use Rattle.std.specs.Prelude.{◌≡◌, ◌≤◌, [], ◌∷◌, drop, IfOk, true, not, ◌&&◌};
ghost use Rattle.schema_syntax_grammar.specs.declared.token_kind.TokenKind.{TokenKind};
ghost use Rattle.schema_layout_pieces.specs.Layout.{Before, beginning, begins_item, is_head, opens, closes, clings};
ghost use Rattle.schema_layout_pieces.specs.Layout.{holds, breaks, separates, between, in_braces, brackets_past};
ghost use Rattle.schema_layout_pieces.specs.Layout.{past_token, past_comment, gap_to_token, gap_to_comment};
ghost use Rattle.schema_layout_pieces.specs.Layout.{depth, depth_at};
ghost use Rattle.schema_layout_pieces.specs.Kept.{feed, fed, has_empty_line, is_at_brace};

use schema_syntax_grammar::TokenKind;
use std::alloc::{AllocError, Global};
use std::marker::Model;

/// A bracket that is open.
#[derive(Clone, Copy, PartialEq, Eq)]
pub enum Bracket {
    /// The `{` of a namespace.
    Scope,
    /// Another `{`.
    Brace,
    /// One of `[ ( <`.
    Other,
}

/// The piece in front.
#[derive(Clone, Copy, PartialEq, Eq)]
pub enum Last {
    /// There is none.
    Nothing,
    /// A comment.
    Comment,
    /// A token.
    Token,
}

/// What stands between two pieces.
#[derive(Clone, Copy, PartialEq, Eq)]
pub enum Gap {
    /// Nothing.
    NoGap,
    /// One space.
    Space,
    /// LF, and two spaces for each open `{`.
    NewLine,
}

/// How many line feeds stand behind the last piece.
#[derive(Clone, Copy, PartialEq, Eq)]
pub enum Feeds {
    /// None.
    NoFeed,
    /// One.
    OneFeed,
    /// Two or more, which make an empty line.
    MoreFeeds,
}

impl Feeds {
    // One more.
    fn feed(self) -> Feeds
        ensures { result ≡ feed self }
    {
        match self {
            Feeds::NoFeed => Feeds::OneFeed,
            _ => Feeds::MoreFeeds,
        }
    }

    /// The line feeds behind this character.
    pub fn fed(self, character: char) -> Feeds
        ensures { result ≡ fed self character }
    {
        if character == '\n' { self.feed() } else { self }
    }

    /// Whether an empty line stands there that is kept, where empty lines are kept at all.
    pub fn has_kept_line(self, keeps: bool) -> bool
        ensures { result ≡ (keeps && has_empty_line self) }
    {
        keeps && self == Feeds::MoreFeeds
    }
}

// One of `, ; : ) ] > ? :: ( <`.
fn clings(kind: TokenKind) -> bool
    ensures { result ≡ clings kind }
{
    matches!(
        kind,
        TokenKind::Comma
            | TokenKind::Semi
            | TokenKind::Colon
            | TokenKind::RParen
            | TokenKind::RBracket
            | TokenKind::Greater
            | TokenKind::Question
            | TokenKind::PathSep
            | TokenKind::LParen
            | TokenKind::Less
    )
}

// One of `( [ < @ ::`.
fn holds(kind: TokenKind) -> bool
    ensures { result ≡ holds kind }
{
    matches!(
        kind,
        TokenKind::LParen
            | TokenKind::LBracket
            | TokenKind::Less
            | TokenKind::At
            | TokenKind::PathSep
    )
}

// One of `[ ( <`.
fn opens(kind: TokenKind) -> bool
    ensures { result ≡ opens kind }
{
    matches!(
        kind,
        TokenKind::LBracket | TokenKind::LParen | TokenKind::Less
    )
}

// One of `} ] ) >`.
fn closes(kind: TokenKind) -> bool
    ensures { result ≡ closes kind }
{
    matches!(
        kind,
        TokenKind::RBrace | TokenKind::RBracket | TokenKind::RParen | TokenKind::Greater
    )
}

// One for a `{`.
fn braces_of(bracket: Bracket) -> usize
    ensures value { result ≡ depth (bracket ∷ []) }
    ensures few { result ≤ 1 }
{
    match bracket {
        Bracket::Other => 0,
        _ => 1,
    }
}

/// What stands in front of a piece.
#[derive(Drop)]
pub struct Context {
    last: Last,
    kind: TokenKind,
    annotates: bool,
    heads: bool,
    // the innermost last
    brackets: Vec<Bracket>,
    // how many of them are `{`
    braces: usize,
}

impl Model for Context {
    ghost use Rattle.std.specs.Prelude.{◌≡◌, reverse};
    ghost use Rattle.schema_layout_pieces.specs.Layout.{Before, depth};

    ghost Value = { Before };

    ghost view = { λ c. record {
      last = c.last;
      kind = c.kind;
      annotates = c.annotates;
      heads = c.heads;
      brackets = reverse c.brackets.items;
    } };

    ghost invariant = { λ c. c.braces ≡ depth (reverse c.brackets.items) };
}

impl Context {
    /// At the beginning of a text.
    pub fn new(alloc: Global) -> Context
        ensures { result ≡ beginning }
    {
        Context {
            last: Last::Nothing,
            kind: TokenKind::End,
            annotates: false,
            heads: false,
            brackets: Vec::new(alloc),
            braces: 0,
        }
    }

    /// The piece in front.
    pub fn last(&self) -> Last
        ensures { result ≡ self.now.last }
    {
        self.last
    }

    fn begins_item(&self) -> bool
        ensures { result ≡ begins_item self.now }
    {
        self.annotates
            || matches!(
                self.kind,
                TokenKind::End | TokenKind::Semi | TokenKind::RBrace | TokenKind::RParen
            )
    }

    fn is_head(&self, kind: TokenKind) -> bool
        ensures { result ≡ is_head self.now kind }
    {
        if kind == TokenKind::KwNamespace && self.begins_item() {
            return true;
        }
        self.heads && (kind.is_word() || kind == TokenKind::PathSep)
    }

    fn in_braces(&self) -> bool
        ensures { result ≡ in_braces self.now.brackets }
    {
        matches!(self.brackets.last(), Some(Bracket::Brace))
    }

    /// How many `{` are open.
    pub fn depth(&self) -> usize
        ensures { result ≡ depth self.now.brackets }
    {
        self.braces
    }

    /// At how many `{` a token of this kind stands on a line of its own.
    pub fn depth_at(&self, kind: TokenKind) -> usize
        ensures { result ≡ depth_at self.now kind }
    {
        let depth = self.depth();
        if kind == TokenKind::RBrace && depth > 0 {
            depth - 1
        } else {
            depth
        }
    }

    // Between two tokens: whether a new line stands there by a mark on either side.
    fn breaks(&self, kind: TokenKind) -> bool
        ensures { result ≡ breaks self.now kind }
    {
        if self.kind == TokenKind::LBrace
            || self.kind == TokenKind::Semi
            || kind == TokenKind::RBrace
        {
            return true;
        }
        self.kind == TokenKind::RParen || (self.annotates && kind != TokenKind::LParen)
    }

    // Between two tokens that do not touch: whether a new line stands there.
    fn separates(&self, kind: TokenKind) -> bool
        ensures { result ≡ separates self.now kind }
    {
        if self.kind == TokenKind::Comma && self.in_braces() {
            return true;
        }
        self.kind == TokenKind::RBrace && kind != TokenKind::KwTags
    }

    fn between(&self, kind: TokenKind) -> Gap
        ensures { result ≡ between self.now kind }
    {
        let empty = self.kind == TokenKind::LBrace && kind == TokenKind::RBrace;
        let breaks = self.breaks(kind);
        let touches = clings(kind) || holds(self.kind);
        let separates = self.separates(kind);
        if empty {
            Gap::NoGap
        } else if breaks {
            Gap::NewLine
        } else if touches {
            Gap::NoGap
        } else if separates {
            Gap::NewLine
        } else {
            Gap::Space
        }
    }

    /// The gap before a token of this kind.
    pub fn gap_to_token(&self, kind: TokenKind) -> Gap
        ensures { result ≡ gap_to_token self.now.last self.now kind }
    {
        match self.last {
            Last::Nothing => Gap::NoGap,
            Last::Comment => Gap::NewLine,
            Last::Token => self.between(kind),
        }
    }

    /// The gap before a comment.
    pub fn gap_to_comment(&self, beside: bool) -> Gap
        ensures { result ≡ gap_to_comment self.now.last beside }
    {
        match self.last {
            Last::Nothing => Gap::NoGap,
            Last::Comment => Gap::NewLine,
            Last::Token => if beside { Gap::Space } else { Gap::NewLine },
        }
    }

    /// Whether an empty line may be kept before a piece, which is `}` or another.
    pub fn may_be_spaced(&self, closes: bool) -> bool
        ensures { result ≡ (not (is_at_brace self.now.last self.now.kind) && not closes) }
    {
        let at_brace = self.last == Last::Token && self.kind == TokenKind::LBrace;
        !at_brace && !closes
    }

    /// Goes past a comment.
    pub fn pass_comment(&mut self)
        ensures { self.new ≡ past_comment self.old }
    {
        self.last = Last::Comment;
    }

    // Opens a bracket.
    fn open(&mut self, bracket: Bracket) -> Result<(), AllocError>
        ensures { IfOk result (λ _. self.new ≡ record self.old { brackets = bracket ∷ self.old.brackets }) }
    {
        self.brackets.push(bracket)?;
        self.braces += braces_of(bracket);
        Ok(())
    }

    // Closes the innermost bracket, if one is open.
    fn close(&mut self)
        ensures { self.new ≡ record self.old { brackets = drop 1 self.old.brackets } }
    {
        if let Some(closed) = self.brackets.pop() {
            self.braces -= braces_of(closed);
        }
    }

    // Opens or closes the bracket that a token of this kind is.
    fn pass_bracket(&mut self, kind: TokenKind) -> Result<(), AllocError>
        ensures { IfOk result (λ _. self.new ≡ record self.old { brackets = brackets_past self.old kind }) }
    {
        if kind == TokenKind::LBrace {
            let bracket = if self.heads {
                Bracket::Scope
            } else {
                Bracket::Brace
            };
            return self.open(bracket);
        }
        if opens(kind) {
            return self.open(Bracket::Other);
        }
        if closes(kind) {
            self.close();
        }
        Ok(())
    }

    /// Goes past a token of this kind.
    pub fn pass_token(&mut self, kind: TokenKind) -> Result<(), AllocError>
        ensures { IfOk result (λ _. self.new ≡ past_token self.old kind) }
    {
        let heads = self.is_head(kind);
        let annotates = self.kind == TokenKind::At;
        self.pass_bracket(kind)?;
        self.annotates = annotates;
        self.heads = heads;
        self.last = Last::Token;
        self.kind = kind;
        Ok(())
    }
}
