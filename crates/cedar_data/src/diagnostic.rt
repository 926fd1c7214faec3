//! What reports say of errors and warnings.
ghost use Rattle.std.specs.Prelude.{◌≡◌, ℕ, List, [], Option, None, Ok, IfOk};
ghost use Rattle.cedar_data.specs.declared.label.Label.{Label};
ghost use Rattle.cedar_data.specs.declared.severity.Severity.{Severity};
ghost use Rattle.cedar_data.specs.declared.severity.Severity.TheVariants.{Error};

use crate::label::Label;
use crate::severity::Severity;
use crate::text::Text;
use std::alloc::{AllocError, Global};

/// An error or a warning, as a report shows it. Each call but `severity` takes memory, and fails only when out of it.
pub trait Diagnostic {
    // What it says, in characters.
    ghost text: { Self → List ℕ };

    // Its advice, given the bytes of the source. An impl that says nothing of it has none.
    ghost help: { Self → List ℕ → Option (List ℕ) } = { λ _ _. None };

    // The places that it points to, in order. An impl that says nothing of them has none.
    ghost labels: { Self → List Label } = { λ _. [] };

    // Its severity: an error, unless an impl says otherwise.
    ghost severity: { Self → Severity } = { λ _. Error };

    /// What it says.
    fn text(&self, alloc: Global) -> Result<Text, AllocError>
        ensures text { IfOk result (λ said. said ≡ text self.now) };

    /// Advice on the source in which it was found. Without advice, the call takes no memory.
    fn help(&self, alloc: Global, source: &str) -> Result<Option<Text>, AllocError>
        ensures help { IfOk result (λ advice. advice ≡ help self.now source.now) }
        ensures none { help self.now source.now ≡ None → result ≡ Ok None };

    /// The places that it points to, in order, with what it says there.
    fn labels(&self, alloc: Global) -> Result<Vec<Label>, AllocError>
        ensures labels { IfOk result (λ found. found.items ≡ labels self.now) };

    /// Its severity.
    fn severity(&self) -> Severity
        ensures severity { result ≡ severity self.now };
}
