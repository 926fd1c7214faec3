ghost use Rattle.std.specs.Prelude.{◌≡◌};
ghost use Rattle.schema_syntax_tree.specs.Words.{pr_text};

use cedar_data::CloneIn;
use std::alloc::{AllocError, Global};

/// What an action may be applied to: the one who acts, or what it is done to.
#[derive(Clone, Copy, PartialEq, Eq)]
pub enum PR {
    /// The one who acts.
    Principal,
    /// What it is done to.
    Resource,
}

impl PR {
    /// The word for it in a schema text.
    pub fn as_str(self) -> &'static str
        ensures { result.now ≡ pr_text self }
    {
        match self {
            PR::Principal => "principal",
            PR::Resource => "resource",
        }
    }
}

impl CloneIn for PR {
    fn clone_in(&self, alloc: Global) -> Result<Self, AllocError> {
        Ok(*self)
    }
}
