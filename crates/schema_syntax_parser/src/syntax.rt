ghost use Rattle.std.specs.Prelude.{◌≡◌};

use cedar_data::{Boxed, List, Loc, NonEmpty};
use schema_syntax_tokens::ShortToken;

/// A path, which is names with `::` between two, or a reference to an action, whose last name may be a string.
pub struct PathSyntax {
    pub names: NonEmpty<ShortToken>,
    pub loc: Loc,
}

impl Drop for PathSyntax {
    fn drop(self) {
        let PathSyntax {
            names: _names,
            loc: _loc,
        } = self;
    }
}

impl PathSyntax {
    /// The names, and the place.
    pub fn into_parts(self) -> (NonEmpty<ShortToken>, Loc)
        ensures { result ≡ (self.names, self.loc) }
    {
        let PathSyntax { names, loc } = self;
        (names, loc)
    }
}

/// `@` and a word, and the string that stands in parentheses behind it.
pub struct AnnotationSyntax {
    pub key: ShortToken,
    pub value: Option<ShortToken>,
}

impl Drop for AnnotationSyntax {
    fn drop(self) {
        let AnnotationSyntax {
            key: _key,
            value: _value,
        } = self;
    }
}

/// A type, and its place.
#[cycle(syntax)]
#[derive(Drop)]
pub enum TypeSyntax {
    /// A type's name.
    Path(PathSyntax),
    /// The sets of a type.
    Set(Boxed<TypeSyntax>, Loc),
    /// The records with these attributes.
    Record(List<AttrSyntax>, Loc),
}

/// An attribute. Its place begins behind the annotations.
#[cycle(syntax)]
#[derive(Drop)]
pub struct AttrSyntax {
    pub annotations: List<AnnotationSyntax>,
    pub name: ShortToken,
    /// Whether no `?` stands behind the name.
    pub required: bool,
    pub ty: TypeSyntax,
    pub loc: Loc,
}

/// A member of an `appliesTo` block, and its place.
#[derive(Drop)]
pub enum AppSyntax {
    /// `principal` or `resource`, and entity types.
    Types(ShortToken, List<PathSyntax>, Loc),
    /// `context`, and the path of a common type.
    ContextPath(PathSyntax, Loc),
    /// `context`, and a record with its place.
    ContextRecord(List<AttrSyntax>, Loc, Loc),
}

/// A declaration without its annotations.
#[derive(Drop)]
pub enum DeclSyntax {
    /// An entity type: its names, its parents, its attributes with their place, where a record stands, and the type of
    /// its tags.
    Entity {
        names: NonEmpty<ShortToken>,
        parents: List<PathSyntax>,
        shape: Option<(List<AttrSyntax>, Loc)>,
        tags: Option<Boxed<TypeSyntax>>,
    },
    /// An entity type of listed ids: its names, the strings, and the place of the brackets around them.
    Enum {
        names: NonEmpty<ShortToken>,
        choices: List<ShortToken>,
        brackets: Loc,
    },
    /// An entity type of another schema: its names and its parents.
    ExternalEntity {
        names: NonEmpty<ShortToken>,
        parents: List<PathSyntax>,
    },
    /// An action: its names, its parents, and the members of its `appliesTo` block, with the place of the braces around
    /// them.
    Action {
        names: NonEmpty<ShortToken>,
        parents: List<PathSyntax>,
        applies: Option<(List<AppSyntax>, Loc)>,
    },
    /// An action of another schema: its names and its parents.
    ExternalAction {
        names: NonEmpty<ShortToken>,
        parents: List<PathSyntax>,
    },
    /// A common type: its name, and what it stands for.
    Common {
        name: ShortToken,
        ty: TypeSyntax,
    },
}

/// A declaration with its annotations. Its place begins behind them.
pub struct DeclaredSyntax {
    pub annotations: List<AnnotationSyntax>,
    pub decl: DeclSyntax,
    pub loc: Loc,
}

impl Drop for DeclaredSyntax {
    fn drop(self) {
        let DeclaredSyntax {
            annotations: _annotations,
            decl: _decl,
            loc: _loc,
        } = self;
    }
}

impl DeclaredSyntax {
    /// The annotations, the declaration, and its place.
    pub fn into_parts(self) -> (List<AnnotationSyntax>, DeclSyntax, Loc)
        ensures { result ≡ (self.annotations, self.decl, self.loc) }
    {
        let DeclaredSyntax {
            annotations,
            decl,
            loc,
        } = self;
        (annotations, decl, loc)
    }
}

/// A namespace, or a declaration that stands in none.
#[derive(Drop)]
pub enum ItemSyntax {
    /// The annotations of a namespace, its path, its declarations, and the place from `namespace` through `}`.
    Namespace(List<AnnotationSyntax>, PathSyntax, List<DeclaredSyntax>, Loc),
    /// A declaration.
    Decl(DeclaredSyntax),
}
