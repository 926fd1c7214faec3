//! The formatter: reads a schema and writes it laid out anew, with its comments.
#![tactic(auto)]

use cedar_runs::{Call, StdSink, StdSource, call_of};
use schema_layout::run_layout;
use std::process::ExitCode;

const VERSION: &str = "schema_layout 0.1.0\n";

const HELP: &str = "\
usage: schema_layout layout

Reads a Cedar schema from standard input, and writes it laid out anew: the same tokens and comments in the same order,
two spaces for each open brace, and no empty lines. Laid out again, the text stays as it is.

  layout                writes the text laid out
  --help, --version     this text, and the version

The input has at most 16777216 bytes.

exit status: 0 done, 1 the text is no schema, 2 no such command, 3 reading failed, 4 writing failed,
5 the input is not UTF-8, 6 the input is too long, 7 out of memory

  $ echo 'entity User in Group;entity Group; // all of them' | schema_layout layout
  entity User in Group;
  entity Group; // all of them
";

fn main(rt: HostRuntime) -> ExitCode {
    let status = match call_of(&rt, HELP, VERSION) {
        Call::Run(words) => run_layout(
            rt.alloc(),
            &words,
            &mut StdSource::new(rt.stdin()),
            &mut StdSink::new(rt.stdout()),
            &mut StdSink::new(rt.stderr()),
        ),
        Call::Ended(status) => status,
    };
    ExitCode::from(status.code())
}
