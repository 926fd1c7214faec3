ghost use Rattle.std.specs.Prelude.{◌≡◌};
ghost use Rattle.cedar_identifiers.specs.Words.{is_reserved};
ghost use Rattle.cedar_identifiers.specs.NameReading.{is_single, refuses};

use crate::reserved::{is_cedar, is_reserved};

/// What a text is read as.
#[derive(Clone, Copy, PartialEq, Eq)]
pub enum NameKind {
    /// Any word.
    AnyId,
    /// A word that is not reserved.
    Id,
    /// A word that is neither reserved nor `__cedar`.
    UnreservedId,
    /// Words with `::` between two, none of them reserved.
    InternalName,
    /// Words with `::` between two, none of them reserved or `__cedar`.
    Name,
}

impl NameKind {
    // Whether it is one word, and no path.
    pub(crate) fn is_single(self) -> bool
        ensures { result ≡ is_single self }
    {
        match self {
            NameKind::AnyId | NameKind::Id | NameKind::UnreservedId => true,
            NameKind::InternalName | NameKind::Name => false,
        }
    }

    // Whether no component may be this word.
    pub(crate) fn refuses(self, word: &str) -> bool
        ensures { result ≡ refuses self word.now }
    {
        match self {
            NameKind::AnyId => false,
            NameKind::Id | NameKind::InternalName => is_reserved(word),
            NameKind::UnreservedId | NameKind::Name => is_reserved(word) || is_cedar(word),
        }
    }
}
