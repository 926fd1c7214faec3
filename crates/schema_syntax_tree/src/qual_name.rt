ghost use Rattle.std.specs.Prelude.{◌≡◌, None, Some};

use crate::path::Path;
use crate::src_str::SrcStr;
use cedar_data::CloneIn;
use std::alloc::{AllocError, Global};

/// The name of an action: its id, behind the path of its type where one was written.
pub struct QualName<'a> {
    /// The path of its type.
    pub path: Option<Path<'a>>,
    /// Its id.
    pub eid: SrcStr<'a>,
}

impl<'a> Drop for QualName<'a> {
    fn drop(self) {
        let QualName {
            path: _path,
            eid: _eid,
        } = self;
    }
}

impl<'a> QualName<'a> {
    /// The name with this id alone.
    pub fn unqualified(eid: SrcStr<'a>) -> QualName<'a>
        ensures { result ≡ record { path = None; eid = eid.entry } }
    {
        QualName { path: None, eid }
    }

    /// The name with this id, behind this path.
    pub fn qualified(path: Path<'a>, eid: SrcStr<'a>) -> QualName<'a>
        ensures { result ≡ record { path = Some path.entry; eid = eid.entry } }
    {
        QualName {
            path: Some(path),
            eid,
        }
    }
}

impl<'a> CloneIn for QualName<'a> {
    fn clone_in(&self, alloc: Global) -> Result<Self, AllocError> {
        Ok(QualName {
            path: self.path.clone_in(alloc)?,
            eid: self.eid.clone_in(alloc)?,
        })
    }
}
