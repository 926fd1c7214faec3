//! Completion: reads a schema, which may be in work, and writes what may stand at a place of it.
#![tactic(auto)]

use cedar_runs::{Call, StdSink, StdSource, call_of};
use schema_assist::run_assist;
use std::process::ExitCode;

const VERSION: &str = "schema_assist 0.1.0\n";

const HELP: &str = "\
usage: schema_assist at PLACE

Reads a Cedar schema from standard input, and writes what may stand at a place of it: a line `kind ..` for each kind of
token that may come there, and a line `name ..` for each name that may be written there, as it is spelled there. A word
that ends at the place is one that is being written: the kinds may stand in its stead, and the names begin with it.

  at PLACE              writes what may stand at the byte offset PLACE, which has one to eight digits
  --help, --version     this text, and the version

Names are known where the whole input is a schema; where it has a fault, there are kinds alone. Of a fault before the
place, other than that the text ends there, the first is told. The input has at most 16777216 bytes.

exit status: 0 done, 1 no such place or a fault before it, 2 no such command, 3 reading failed, 4 writing failed,
5 the input is not UTF-8, 6 the input is too long, 7 out of memory

  $ echo 'entity Ab; entity B in A;' | schema_assist at 24 | grep name
  name Ab
";

fn main(rt: HostRuntime) -> ExitCode {
    let status = match call_of(&rt, HELP, VERSION) {
        Call::Run(words) => run_assist(
            rt.alloc(),
            &words,
            &mut StdSource::new(rt.stdin()),
            &mut StdSink::new(rt.stdout()),
            &mut StdSink::new(rt.stderr()),
        ),
        Call::Ended(status) => status,
    };
    ExitCode::from(status.code())
}
