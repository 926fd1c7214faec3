//! The registry: reads messages, each a schema, and answers each by the entry of its meaning.
#![tactic(auto)]

use cedar_runs::{Call, StdSink, StdSource, call_of};
use schema_registry::run_registry;
use std::process::ExitCode;

const VERSION: &str = "schema_registry 0.1.0\n";

const HELP: &str = "\
usage: schema_registry register|register-with [NAME..]

Reads messages from standard input, each a Cedar schema, and writes a line for each: `entry N`, where N counts the
different meanings that came before its own first came, or `refused` where it is no schema, or `not text` where it is
not UTF-8. A message is its length in four bytes, the highest first, and so many bytes.

  register                answers under all extension types
  register-with NAME..    answers where just these extension types are known
  --help, --version       this text, and the version

The extension types are decimal, ipaddr, datetime and duration. The input has at most 16777216 bytes.

exit status: 0 done, 1 the last message is cut short, 2 no such command, 3 reading failed, 4 writing failed,
6 the input is too long, 7 out of memory
";

fn main(rt: HostRuntime) -> ExitCode {
    let status = match call_of(&rt, HELP, VERSION) {
        Call::Run(words) => run_registry(
            rt.alloc(),
            &words,
            &mut StdSource::new(rt.stdin()),
            &mut StdSink::new(rt.stdout()),
            &mut StdSink::new(rt.stderr()),
        ),
        Call::Ended(status) => status,
    };
    ExitCode::from(status.code())
}
