ghost use Rattle.std.specs.Prelude.{◌≢◌, OnOk, OnErr};
ghost use Rattle.cedar_files.specs.Files.{Holds, Same};

use crate::fault::FileFault;
use crate::files::Files;

/// Replaces the content of a file, which has the old content or the new one at each moment. The new content is first
/// written beside it.
pub fn replace<F: Files>(
    files: &mut F,
    path: &str,
    beside: &str,
    bytes: &[u8],
) -> Result<(), FileFault>
    requires { path.now ≢ beside.now }
    ensures ok { OnOk result (Holds (F.files files.new) path.now bytes.now) }
    ensures err { OnErr result (Same (F.files files.old) (F.files files.new) path.now) }
{
    files.put(beside, bytes)?;
    files.rename(beside, path)
}
