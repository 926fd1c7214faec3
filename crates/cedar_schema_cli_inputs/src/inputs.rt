//! What reading an input gives.
ghost use Rattle.std.specs.Prelude.{◌≡◌, ◌≤◌, ◌+◌, map, IfOk};
ghost use Rattle.std.specs.String.{string_bytes};
ghost use Rattle.cedar_files.specs.Files.{Keeps};
ghost use Rattle.cedar_io.specs.Input.{TookAtMost, max_input};
ghost use Rattle.cedar_runs.specs.Runs.{device};
ghost use Rattle.cedar_schema_cli_inputs.specs.Inputs.{is_standard, names_standard, IsRead};
ghost use Rattle.cedar_schema_cli_inputs.specs.Inputs.{IsStandardRead, IsStandardGiven};

use cedar_data::List;
use cedar_files::{FileFault, Files};
use cedar_io::{ReadEnd, Source, read_input};
use std::alloc::{AllocError, Global};

/// What reading an input gave: its bytes, or why there are none.
pub type Given = Result<List<u8>, FileFault>;

/// Whether the name is that of the standard input.
pub fn is_standard(name: &str) -> bool
    ensures { result ≡ is_standard name.now }
{
    name == "-"
}

// Whether one of the names is that of the standard input.
fn names_standard(names: &[String]) -> bool
    ensures { result ≡ names_standard (map string_bytes names.now) }
{
    for name in names {
        if is_standard(name.as_str()) {
            return true;
        }
    }
    false
}

// What reading the standard input gives.
fn read_source<S: Source>(alloc: Global, source: &mut S) -> Result<Given, AllocError>
    ensures given { IfOk result
        (λ given. IsStandardRead (device S.left S.faults source.old source.new) given) }
    ensures taken { TookAtMost (max_input + 1) (S.left source.old) (S.left source.new) }
    ensures later { S.faults source.old ≤ S.faults source.new }
{
    match read_input(alloc, source) {
        Ok(bytes) => Ok(Ok(List::from_vec(bytes))),
        Err(ReadEnd::Failed) => Ok(Err(FileFault::System)),
        Err(ReadEnd::TooLong) => Ok(Err(FileFault::TooLong)),
        Err(ReadEnd::Memory) => Err(AllocError),
    }
}

/// What reading the standard input gives, where one of the names is that of it; otherwise nothing is read. It errs when
/// out of memory.
pub fn read_standard<S: Source>(
    alloc: Global,
    source: &mut S,
    names: &[String],
) -> Result<Given, AllocError>
    ensures given { IfOk result (λ given. IsStandardGiven (map string_bytes names.now)
        (device S.left S.faults source.old source.new) given) }
    ensures taken { TookAtMost (max_input + 1) (S.left source.old) (S.left source.new) }
    ensures later { S.faults source.old ≤ S.faults source.new }
{
    if names_standard(names) {
        return read_source(alloc, source);
    }
    Ok(Ok(List::new(alloc)))
}

/// What reading the file gives. It errs when out of memory.
pub fn read_file<F: Files>(alloc: Global, files: &mut F, path: &str) -> Result<Given, AllocError>
    ensures given { IfOk result (λ given. IsRead (F.files files.old) path.now given) }
    ensures same { Keeps (F.files files.old) (F.files files.new) }
{
    match files.read(alloc, path) {
        Ok(bytes) => Ok(Ok(List::from_vec(bytes))),
        Err(FileFault::Memory) => Err(AllocError),
        Err(fault) => Ok(Err(fault)),
    }
}
