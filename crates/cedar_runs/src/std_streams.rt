ghost use Rattle.std.specs.Prelude.{◌≡◌, None};

use cedar_io::{Failed, Sink, Source};
use std::io::{Read, Write};

/// Standard input, which tells no content. A fault is counted at each error.
#[derive(Drop)]
pub struct StdSource<R: Drop> {
    input: R,
    faults: u64,
}

impl<R: Read + Drop> StdSource<R> {
    /// The source of this input, with no fault counted yet.
    pub fn new(input: R) -> StdSource<R>
        ensures input { result.input ≡ input }
        ensures faults { result.faults ≡ 0 }
    {
        StdSource { input, faults: 0 }
    }
}

impl<R: Read + Drop> Source for StdSource<R> {
    ghost left = { λ _. None };

    ghost faults = { λ s. s.faults };

    fn read(&mut self, buf: &mut [u8]) -> Result<usize, Failed> {
        match self.input.read(buf) {
            Ok(n) => Ok(n),
            Err(_) => {
                self.faults = self.faults.saturating_add(1);
                Err(Failed)
            }
        }
    }
}

/// Standard output or standard error, which tell no content. A fault is counted at each error, and where nothing is
/// taken of bytes that are there.
#[derive(Drop)]
pub struct StdSink<W: Drop> {
    output: W,
    faults: u64,
}

impl<W: Write + Drop> StdSink<W> {
    /// The sink of this output, with no fault counted yet.
    pub fn new(output: W) -> StdSink<W>
        ensures output { result.output ≡ output }
        ensures faults { result.faults ≡ 0 }
    {
        StdSink { output, faults: 0 }
    }
}

impl<W: Write + Drop> Sink for StdSink<W> {
    ghost taken = { λ _. None };

    ghost faults = { λ s. s.faults };

    ghost sure = { λ _. 0 };

    fn write(&mut self, bytes: &[u8]) -> Result<usize, Failed> {
        match self.output.write(bytes) {
            Ok(n) if n > 0 || bytes.is_empty() => Ok(n),
            _ => {
                self.faults = self.faults.saturating_add(1);
                Err(Failed)
            }
        }
    }
}
