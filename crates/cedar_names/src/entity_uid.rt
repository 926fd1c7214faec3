ghost use Rattle.std.specs.Prelude.{◌≡◌, ◌↔◌, true};
ghost use Rattle.std.specs.Str.{encode_utf8_all};
ghost use Rattle.std.specs.Cmp.Lexicographic.{slice_cmp};
ghost use Rattle.std.specs.Ordering.{ordering_then};
ghost use Rattle.cedar_data.specs.Text.{text_cmp};
ghost use Rattle.cedar_identifiers.specs.Names.{components_of};

use cedar_data::{CloneIn, Loc, Text};
use cedar_identifiers::laws::declared_names_go_by_components;
use cedar_identifiers::{Eid, Name, NameText};
use schema_syntax_tokens::push_quoted;
use std::alloc::{AllocError, Global};

/// An entity: its type and its id, with a place that no comparison sees. It is ordered by type, then by the bytes of
/// its id.
#[derive_where(PartialEq, Eq, PartialOrd, Ord, Hash)]
pub struct EntityUID {
    pub ty: Name,
    pub eid: Eid,
    #[derive_where(skip(EqHashOrd))]
    pub loc: Option<Loc>,
}

impl Drop for EntityUID {
    fn drop(self) {
        let EntityUID {
            ty: _ty,
            eid: _eid,
            loc: _loc,
        } = self;
    }
}

impl EntityUID {
    ghost use Rattle.std.specs.Prelude.{◌≡◌, IfOk};
    ghost use Rattle.cedar_names.specs.EntityTexts.{entity_text};

    /// The type and the id, without the place.
    pub fn components(self) -> (Name, Eid)
        ensures { result ≡ (self.ty, self.eid) }
    {
        let EntityUID { ty, eid, loc: _loc } = self;
        (ty, eid)
    }

    /// The entity's text: its type, `::` and its id as a string.
    pub fn text(&self, alloc: Global) -> Result<Text, AllocError>
        ensures { IfOk result (λ text. text ≡ entity_text self.now) }
    {
        let mut text = self.ty.text(alloc)?;
        text.push_str("::")?;
        push_quoted(&mut text, self.eid.0.as_str())?;
        Ok(text)
    }
}

impl CloneIn for EntityUID {
    fn clone_in(&self, alloc: Global) -> Result<Self, AllocError> {
        Ok(EntityUID {
            ty: self.ty.clone_in(alloc)?,
            eid: self.eid.clone_in(alloc)?,
            loc: self.loc,
        })
    }
}

/// Entities are ordered by type, then by the bytes of their ids; their places are not seen.
pub fn entities_go_by_type_and_id(a: &EntityUID, b: &EntityUID)
    ensures order { ⟦<EntityUID as Ord>⟧.cmp a.now b.now
        ≡ ordering_then (slice_cmp text_cmp (components_of a.now.ty.name) (components_of b.now.ty.name))
        (text_cmp a.now.eid.0 b.now.eid.0) }
    ensures equal { ⟦<EntityUID as PartialEq>⟧.eq a.now b.now ≡ true
        ↔ ((components_of a.now.ty.name ≡ components_of b.now.ty.name)
        × (encode_utf8_all a.now.eid.0 ≡ encode_utf8_all b.now.eid.0)) }
{
    declared_names_go_by_components(&a.ty, &b.ty);
}
