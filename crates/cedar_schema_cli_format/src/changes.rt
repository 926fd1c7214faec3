//! Files that are to be replaced.
ghost use Rattle.std.specs.Prelude.{◌≡◌, ◌++◌, map, string_bytes, IfOk, OnOk, OnErr, MatchOption};
ghost use Rattle.std.specs.Str.{encode_utf8_all};
ghost use Rattle.cedar_schema_cli_format.specs.Formatting.{replacement_of};
ghost use Rattle.cedar_schema_cli_format.specs.Plans.{replacement};
ghost use Rattle.cedar_schema_cli_format.specs.Replacing.{AreReplaced, IsReplaced, IsSpared};
ghost use Rattle.cedar_schema_cli_format.specs.Stopping.{IsStoppedAt};

use cedar_data::Text;
use cedar_files::{FileFault, Files};
use std::alloc::{AllocError, Global};

/// A file that is to be replaced.
#[derive(Drop)]
pub struct Change {
    pub path: String,
    /// The path at which the new content is written first.
    pub beside: String,
    /// The report where the file cannot be replaced.
    pub told: String,
    /// The new content.
    pub text: Text,
}

// Two texts in one.
fn joined(alloc: Global, first: &str, second: &str) -> Result<String, AllocError>
    ensures { IfOk result (λ whole. string_bytes whole ≡ first.now ++ second.now) }
{
    let mut whole = String::from_str(alloc, first)?;
    whole.push_str(second)?;
    Ok(whole)
}

/// The change of the file with this path to this text.
pub(crate) fn change_to(alloc: Global, path: &str, text: Text) -> Result<Change, AllocError>
    ensures { IfOk result (λ change. replacement_of change ≡ replacement path.now (encode_utf8_all text)) }
{
    Ok(Change {
        path: String::from_str(alloc, path)?,
        beside: joined(alloc, path, ".cedar-schema~")?,
        told: joined(alloc, path, ": error: writing failed\n")?,
        text,
    })
}

// Replaces the file. Where that fails it is as before.
fn replace_at<F: Files>(
    files: &mut F,
    path: &str,
    beside: &str,
    bytes: &[u8],
) -> Result<(), FileFault>
    ensures ok { OnOk result (IsReplaced (F.files files.old) path.now beside.now bytes.now (F.files files.new)) }
    ensures err { OnErr result (IsSpared (F.files files.old) beside.now (F.files files.new)) }
{
    files.put(beside, bytes)?;
    files.rename(beside, path)
}

// Makes the change. Where that fails the file is as before.
fn replace_one<F: Files>(files: &mut F, change: &Change) -> Result<(), FileFault>
    ensures ok { let file = replacement_of change.now in
        OnOk result (IsReplaced (F.files files.old) file.path file.beside file.bytes (F.files files.new)) }
    ensures err { OnErr result
        (IsSpared (F.files files.old) (replacement_of change.now).beside (F.files files.new)) }
{
    replace_at(
        files,
        change.path.as_str(),
        change.beside.as_str(),
        change.text.as_str().as_bytes(),
    )
}

/// Replaces the files, one after another. It stops at the first that cannot be replaced, and tells its index.
pub(crate) fn replace_all<F: Files>(files: &mut F, changes: &[Change]) -> Option<usize>
    ensures { MatchOption result
        (AreReplaced (F.files files.old) (map replacement_of changes.now) (F.files files.new))
        (IsStoppedAt (F.files files.old) changes.now (F.files files.new)) }
{
    for (at, change) in changes.iter().enumerate() {
        let Ok(()) = replace_one(files, change) else {
            return Some(at);
        };
    }
    None
}
