ghost use Rattle.std.specs.Prelude.{◌≡◌, [], ◌∷◌, ◌++◌, codes, IfOk};
ghost use Rattle.std.specs.Option.{option_copied};
ghost use Rattle.std.specs.Iterator.{YieldsFirst, YieldsFirstRef, item_count};
ghost use Rattle.cedar_data.specs.Rows.{joined_by};
ghost use Rattle.cedar_identifiers.specs.Names.{texts_of};
ghost use Rattle.schema_syntax_tree.specs.Paths.{placed, ids_left, nodes_left, is_in_cedar};

use crate::src_id::SrcId;
use cedar_data::{CloneIn, Loc, Node, NonEmpty, NonEmptyIter, Text};
use cedar_identifiers::is_cedar;
use std::alloc::{AllocError, Global};
use std::collections::VecDeque;
use std::mem;

/// The name of a namespace or a type as it was written: its ids, the outermost first, with a place that no comparison
/// sees.
#[derive_where(PartialEq, Eq, PartialOrd, Ord, Hash)]
pub struct Path<'a> {
    ids: NonEmpty<SrcId<'a>>,
    #[derive_where(skip(EqHashOrd))]
    loc: Option<Loc>,
}

impl<'a> Drop for Path<'a> {
    fn drop(self) {
        let Path {
            ids: _ids,
            loc: _loc,
        } = self;
    }
}

impl<'a> Path<'a> {
    /// The path of this one id, which takes no memory.
    pub fn single(alloc: Global, basename: SrcId<'a>, loc: Option<Loc>) -> Path<'a>
        ensures { result ≡ record { ids = basename.entry ∷ []; loc = loc } }
    {
        Path {
            ids: NonEmpty::new(alloc, basename),
            loc,
        }
    }

    /// The path of these ids, the outermost first, at this place.
    pub fn of_ids(ids: NonEmpty<SrcId<'a>>, loc: Option<Loc>) -> Path<'a>
        ensures { result ≡ record { ids = ids.entry; loc = loc } }
    {
        Path { ids, loc }
    }

    /// The path with this last id, behind a namespace, at this place.
    pub fn new(basename: SrcId<'a>, mut namespace: Vec<SrcId<'a>>, loc: Option<Loc>) -> Path<'a>
        ensures { result ≡ record { ids = namespace.entry.items ++ basename.entry ∷ []; loc = loc } }
    {
        if namespace.is_empty() {
            return Path {
                ids: NonEmpty::from_parts(basename, namespace),
                loc,
            };
        }
        let first = mem::replace(&mut namespace[0], basename);
        namespace.rotate_left(1);
        Path {
            ids: NonEmpty::from_parts(first, namespace),
            loc,
        }
    }

    /// The ids, the outermost first.
    pub fn iter(&self) -> PathIter<'_, 'a>
        ensures { ids_left result ≡ self.now.ids }
    {
        PathIter {
            ids: self.ids.iter(),
        }
    }

    /// The first id, and those behind it.
    pub fn parts(&self) -> (&SrcId<'a>, &[SrcId<'a>])
        ensures { self.now.ids ≡ result.0.now ∷ result.1.now }
    {
        self.ids.parts()
    }

    /// The path's place.
    pub fn loc(&self) -> Option<&Loc>
        ensures { option_copied result ≡ self.now.loc }
    {
        self.loc.as_ref()
    }

    /// The ids, the outermost first, each with the path's place.
    pub fn into_iter(self) -> PathIntoIter<'a>
        ensures { nodes_left result ≡ placed self.entry.loc self.entry.ids }
    {
        let Path { ids, loc } = self;
        let (first, others) = ids.into_parts();
        PathIntoIter {
            first: Some(first),
            others: VecDeque::from_vec(others),
            loc,
        }
    }

    /// The namespace, and the last id.
    pub fn split_last(self) -> (Vec<SrcId<'a>>, SrcId<'a>)
        ensures { self.entry.ids ≡ result.0.items ++ result.1 ∷ [] }
    {
        let Path { ids, loc: _ } = self;
        let (first, mut others) = ids.into_parts();
        if others.is_empty() {
            return (others, first);
        }
        others.rotate_right(1);
        let basename = mem::replace(&mut others[0], first);
        (others, basename)
    }

    /// Whether the path has the namespace `__cedar`.
    pub fn is_in_cedar(&self) -> bool
        ensures { result ≡ is_in_cedar self.now.ids }
    {
        let mut ids = self.ids.iter();
        match (ids.next(), ids.next(), ids.next()) {
            (Some(namespace), Some(_), None) => is_cedar(namespace.as_str()),
            _ => false,
        }
    }

    /// The ids with `::` between two.
    pub fn text(&self, alloc: Global) -> Result<Text, AllocError>
        ensures { IfOk result (λ text. text ≡ joined_by (codes "::") (texts_of self.now.ids)) }
    {
        let mut ids = self.iter();
        let Some(first) = ids.next() else {
            return Ok(Text::new(alloc));
        };
        let mut text = Text::from_str(alloc, first.as_str())?;
        for id in ids {
            text.push_str("::")?;
            text.push_str(id.as_str())?;
        }
        Ok(text)
    }
}

impl<'a> CloneIn for Path<'a> {
    fn clone_in(&self, alloc: Global) -> Result<Self, AllocError> {
        Ok(Path {
            ids: self.ids.clone_in(alloc)?,
            loc: self.loc,
        })
    }
}

/// The ids of a path, the outermost first.
pub struct PathIter<'b, 'a> {
    ids: NonEmptyIter<'b, SrcId<'a>>,
}

impl<'b, 'a> Drop for PathIter<'b, 'a> {
    fn drop(self) {
        let PathIter { ids: _ids } = self;
    }
}

impl<'b, 'a> Iterator for PathIter<'b, 'a> {
    type Item = &'b SrcId<'a>;

    ghost next_gives = { YieldsFirstRef ids_left };

    ghost remaining = { item_count ids_left };

    fn next(&mut self) -> Option<&'b SrcId<'a>> {
        self.ids.next()
    }
}

/// The ids that a path had, the outermost first, each with the path's place.
pub struct PathIntoIter<'a> {
    first: Option<SrcId<'a>>,
    others: VecDeque<SrcId<'a>>,
    loc: Option<Loc>,
}

impl<'a> Drop for PathIntoIter<'a> {
    fn drop(self) {
        let PathIntoIter {
            first: _first,
            others: _others,
            loc: _loc,
        } = self;
    }
}

impl<'a> Iterator for PathIntoIter<'a> {
    type Item = Node<SrcId<'a>>;

    ghost next_gives = { YieldsFirst nodes_left };

    ghost remaining = { item_count nodes_left };

    fn next(&mut self) -> Option<Node<SrcId<'a>>> {
        let id = match self.first.take() {
            Some(first) => first,
            None => self.others.pop_front()?,
        };
        Some(Node::with_maybe_source_loc(id, self.loc))
    }
}
