ghost use Rattle.std.specs.Prelude.{◌≡◌, [], IfOk};
ghost use Rattle.schema_inclusion_reasons.specs.FirstMisfit.{behind_step};
ghost use Rattle.schema_inclusion_explain.specs.Held.{held_step, held_cause, held_found};

use cedar_data::{List, Text};
use cedar_identifiers::{Name, UnreservedId};
use std::alloc::{AllocError, Global};

/// A step into a value.
#[derive(Drop)]
pub enum Step {
    /// To the attribute, or the tag, of this name.
    Attr(Text),
    /// To the member of a set at this place, counted from 0.
    Member(usize),
}

/// The outermost layer of a type.
#[derive(Drop)]
pub enum Shape {
    Bool,
    Long,
    Str,
    Set,
    Record,
    /// The entity type of this name.
    Entity(Name),
    /// The extension type of this name.
    Extension(UnreservedId),
}

/// Why a value does not fit a type at a place.
#[derive(Drop)]
pub enum Cause {
    /// The type requires the attribute, and it is not there.
    Required,
    /// The attribute is there, and the type has none of its name.
    Unknown,
    /// The value is of the first shape, and the type is of the second.
    Reshaped(Shape, Shape),
    /// The entity type has no such id.
    NoId(Name, Text),
    /// The names of attributes do not rise.
    Disordered,
}

/// A place in a value, by the steps to it, the innermost first, and why the value does not fit there.
#[derive(Drop)]
pub struct Found {
    pub steps: Vec<Step>,
    pub cause: Cause,
}

/// The value itself, and why it does not fit.
pub fn here(alloc: Global, cause: Cause) -> Found
    ensures { held_found result ≡ ([], held_cause cause) }
{
    Found {
        steps: Vec::new(alloc),
        cause,
    }
}

/// The place, as it is from one step further out.
pub fn behind(mut found: Found, step: Step) -> Result<Found, AllocError>
    ensures { IfOk result (λ f. held_found f ≡ behind_step (held_step step) (held_found found)) }
{
    found.steps.push(step)?;
    Ok(found)
}
