ghost use Rattle.std.specs.Prelude.{◌≡◌, ◌⊎◌, ◌≤◌, ℕ, List, Option, length, IfOk, OnOk, OnErr, IsErrOf};
ghost use Rattle.cedar_files.specs.Files.{Reads, Lacks, IsTooLong, Keeps, Puts, Moves};
ghost use Rattle.cedar_io.specs.Input.{max_input};

use crate::fault::FileFault;
use std::alloc::Global;

/// Files by their paths.
pub trait Files {
    /// What each file holds, by its path, where it is told.
    ghost files: { Self → Option (List ℕ → Option (List ℕ)) };

    /// The names of what a folder holds, in any order, and `None` where the path is no folder.
    fn list(&mut self, alloc: Global, path: &str) -> Result<Option<Vec<String>>, FileFault>
        ensures same { Keeps (files self.old) (files self.new) };

    /// The whole content of a file, of at most 16,777,216 bytes.
    fn read(&mut self, alloc: Global, path: &str) -> Result<Vec<u8>, FileFault>
        ensures reads { IfOk result (λ bytes. Reads (files self.old) path.now bytes.items) }
        ensures short { IfOk result (λ bytes. length bytes.items ≤ max_input) }
        ensures missing { IsErrOf result FileFault.Missing → Lacks (files self.old) path.now }
        ensures too_long { IsErrOf result FileFault.TooLong → IsTooLong (files self.old) path.now }
        ensures same { Keeps (files self.old) (files self.new) };

    /// Writes a file whole, and waits until it is on the disk. Where it fails, only that file may have changed.
    fn put(&mut self, path: &str, bytes: &[u8]) -> Result<(), FileFault>
        ensures ok { OnOk result (Puts (files self.old) path.now bytes.now (files self.new)) }
        ensures err { OnErr result (((left : List ℕ) × Puts (files self.old) path.now left (files self.new))
            ⊎ Keeps (files self.old) (files self.new)) };

    /// Gives a file another path, in the place of the file that has it, and waits until that is on the disk. Each
    /// moment one of both has that path.
    fn rename(&mut self, from: &str, to: &str) -> Result<(), FileFault>
        ensures ok { OnOk result (Moves (files self.old) from.now to.now (files self.new)) }
        ensures err { OnErr result (Keeps (files self.old) (files self.new)) };
}
