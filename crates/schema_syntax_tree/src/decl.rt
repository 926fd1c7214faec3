ghost use Rattle.std.specs.Prelude.{◌≡◌, ℕ, List, IfOk};
ghost use Rattle.cedar_data.specs.declared.node.Node.{Node as Placed};

use cedar_data::{Node, Text};
use std::alloc::{AllocError, Global};

/// A declaration that gives names.
pub trait Decl {
    /// The names, in the order of the text, each with its place.
    ghost declared: { Self → List (Placed (List ℕ)) };

    /// A copy of the names.
    fn names(&self, alloc: Global) -> Result<Vec<Node<Text>>, AllocError>
        ensures { IfOk result (λ names. names.items ≡ declared self.now) };
}
