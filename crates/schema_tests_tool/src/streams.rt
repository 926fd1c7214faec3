// The standard streams pass bytes on, and say where a call fails.

use cedar_io::{Failed, Sink, Source};
use cedar_schema_core::{StdSink, StdSource};
use std::io;
use std::io::{Read, Write};

// A stream whose calls give one byte, then fail, and then give nothing.
#[derive(Drop)]
struct Unsteady {
    calls: u8,
}

impl Read for Unsteady {
    fn read(&mut self, buf: &mut [u8]) -> io::Result<usize> {
        self.calls = self.calls.saturating_add(1);
        match (self.calls, buf) {
            (1, [first, ..]) => {
                *first = b'e';
                Ok(1)
            }
            (2, _) => Err(io::Error::from(io::ErrorKind::Other)),
            _ => Ok(0),
        }
    }
}

#[test]
fn a_standard_source_passes_bytes_on(rt: HostRuntime) {
    let mut source = StdSource::new(Unsteady { calls: 0 });
    let mut buf = *b"....";
    assert!(rt; source.read(&mut buf) == Ok(1) && buf == *b"e...");
    assert!(rt; source.read(&mut buf) == Err(Failed) && buf == *b"e...");
    assert!(rt; source.read(&mut buf) == Ok(0) && buf == *b"e...");
}

// A stream that takes an `a` alone, and fails at a `b`.
#[derive(Drop)]
struct Picky;

impl Write for Picky {
    fn write(&mut self, bytes: &[u8]) -> io::Result<usize> {
        match bytes {
            [b'a', ..] => Ok(1),
            [b'b', ..] => Err(io::Error::from(io::ErrorKind::Other)),
            _ => Ok(0),
        }
    }

    fn flush(&mut self) -> io::Result<()> {
        Ok(())
    }
}

#[test]
fn a_standard_sink_passes_bytes_on(rt: HostRuntime) {
    let mut sink = StdSink::new(Picky);
    assert!(rt; sink.write(b"ab") == Ok(1));
    assert!(rt; sink.write(b"b") == Err(Failed));
    assert!(rt; sink.write(b"c") == Err(Failed));
    assert!(rt; sink.write(b"") == Ok(0));
}
