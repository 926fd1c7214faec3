//! Names that are much like one that is not known.
ghost use Rattle.std.specs.Prelude.{◌≡◌, ◌≤◌, ◌++◌, filter, IfOk, OnOk};
ghost use Rattle.schema_report_likeness.specs.Likeness.{is_alike, likes, did_you_mean};

use cedar_data::{CloneIn, Text};
use std::alloc::{AllocError, Global};
use strsim::osa_distance;

/// The known names that are most like this one, three of them at most: those at one edit first, then those at two and
/// at three, each in the order in which they are known. It errs when out of memory.
pub fn did_you_mean(alloc: Global, name: &Text, known: &[Text]) -> Result<Vec<Text>, AllocError>
    ensures { IfOk result (λ names. names.items ≡ did_you_mean name.now known.now) }
{
    let mut found = Vec::new(alloc);
    push_alike(alloc, &mut found, name, 1, known)?;
    push_alike(alloc, &mut found, name, 2, known)?;
    push_alike(alloc, &mut found, name, 3, known)?;
    found.truncate(3);
    Ok(found)
}

// Adds the known names at so many edits.
fn push_alike(
    alloc: Global,
    found: &mut Vec<Text>,
    name: &Text,
    edits: usize,
    known: &[Text],
) -> Result<(), AllocError>
    requires { edits ≤ 3 }
    ensures { OnOk result (found.new.items ≡ found.old.items ++ filter (is_alike name.now edits) known.now) }
{
    for other in known {
        if is_alike(alloc, name, edits, other)? {
            found.push(other.clone_in(alloc)?)?;
        }
    }
    Ok(())
}

// Whether so many edits lead from the name to the other.
fn is_alike(alloc: Global, name: &Text, edits: usize, other: &Text) -> Result<bool, AllocError>
    requires { edits ≤ 3 }
    ensures { IfOk result (λ alike. alike ≡ is_alike name.now edits other.now) }
{
    let (from, to) = (name.as_str(), other.as_str());
    if from.len() > 64 || to.len() > 64 || 3 * edits > from.len().max(3) {
        return Ok(false);
    }
    Ok(osa_distance(alloc, from, to)? == edits)
}
